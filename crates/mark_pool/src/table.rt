//! The table of marks and its seats.
ghost use Rattle.std.specs.Int.{bit_at};
ghost use Rattle.std.specs.Prelude.{◌≡◌, ℕ, ◌<◌, ◌≤◌, ◌==◌, false, Ok, length, IfOk};
ghost use Rattle.mark_pool.specs.declared.place.Place.{Place as Spot};
ghost use Rattle.mark_pool.specs.Edges.{IsMarkAt, IsEdge};
ghost use Rattle.mark_pool.specs.Marks.{all_parts, times, marked_of};
ghost use Rattle.mark_pool.specs.Seats.{IsSeatOf, first_seat, with_claim, with_take, with_scan, with_seen, less_one_part, split_off, joined_seats};

use crate::plays::{Claim, Count, Halve, Look, LookScanned, Scanned, Take, Unite};
use crate::rule::{Board, Stand};
use crate::words::{is_clear, mask, word_of};
use atomic_table::Table;
use cut_builder::ClosedCut;
use object_graph::{MOST_SLOTS, Memory};
use std::alloc::Global;
use std::marker::Model;
use std::snapshot::Snapshot;

/// Three words for each page of a cut: the marks, what is taken to scan, and what is scanned.
/// Contracts see which table it is, and the cut.
#[derive(Drop)]
pub struct MarkTable {
    board: Board,
}

impl Model for MarkTable {
    ghost use Rattle.std.specs.Prelude.{◌≡◌, ◌<◌, ◌≤◌, ◌*◌, length};
    ghost use Rattle.mark_pool.specs.Seats.{Made};

    ghost Value = { Made };

    ghost view = { λ t. record { table = t.board.shared.table_id; cut = t.board.shared.key.value } };

    ghost invariant = { λ t. (t.board.shared.table_id.words ≡ 3 * length t.board.shared.key.value.pages) × (0 < length t.board.shared.key.value.pages) };
}

/// What a worker marks with. For contracts it keeps the places that it saw marked, those that it
/// marked, those that it took to scan, those that it knows to be scanned, and its number of parts
/// (ARCHITECTURE.md, "Marking").
#[derive(Drop)]
pub struct MarkSeat {
    stand: Stand,
}

impl Model for MarkSeat {
    ghost use Rattle.std.specs.Prelude.{◌≡◌, ◌<◌, []};
    ghost use Rattle.mark_pool.specs.Seats.{Known, known};

    ghost Value = { Known };

    ghost view = { λ s. known s.stand.table_id s.stand.me.0 };

    ghost invariant = { λ s. (s.stand.me.1 ≡ []) × (0 < s.stand.me.0.parts) };
}

impl MarkTable {
    /// The table of a cut without a mark, and the first seat, which has all 65,536 parts.
    pub fn new(alloc: Global, cut: &ClosedCut) -> Result<(MarkTable, MarkSeat), Memory>
        ensures cut { IfOk result (λ t. t.0.cut ≡ cut.now) }
        ensures seat { IfOk result (λ t. t.1 ≡ first_seat t.0) }
    {
        cut.is_closed();
        let words = Vec::from_elem(alloc, 0u64, 3 * cut.pages() as usize)?;
        let about = Snapshot::of(cut);
        let (board, stand) = Table::of_words(alloc, words.as_slice(), &about)?;
        Ok((MarkTable { board }, MarkSeat { stand }))
    }
}

impl MarkSeat {
    /// Marks a place, and says whether it wasn't marked before. The seat with all parts has itself
    /// marked what is marked.
    #[inline(always)]
    pub fn claim(&mut self, table: &MarkTable, page: u32, slot: u16) -> bool
        requires own { IsSeatOf table.now self.old }
        requires page { page < length table.now.cut.pages }
        requires slot { slot < MOST_SLOTS }
        requires mark { IsMarkAt table.now.cut page slot }
        ensures claimed { self.new ≡ with_claim self.old page slot result }
        ensures own { self.old.parts ≡ all_parts → result ≡ false → 0 < times page slot self.old.claims }
    {
        let word = word_of(page, 0);
        let one = mask(slot);
        let found = table
            .board
            .shared
            .fetch_or::<Claim>(&mut self.stand, word, one);
        is_clear(found, slot)
    }

    /// Takes a place to scan it, and says whether nobody had taken it. The seat with all parts has
    /// itself taken what was taken.
    #[inline(always)]
    pub fn take_to_scan(&mut self, table: &MarkTable, page: u32, slot: u16) -> bool
        requires own { IsSeatOf table.now self.old }
        requires page { page < length table.now.cut.pages }
        requires slot { slot < MOST_SLOTS }
        ensures took { self.new ≡ with_take self.old page slot result }
        ensures own { self.old.parts ≡ all_parts → result ≡ false → 0 < times page slot self.old.takes }
    {
        let word = word_of(page, 1);
        let one = mask(slot);
        let found = table
            .board
            .shared
            .fetch_or::<Take>(&mut self.stand, word, one);
        is_clear(found, slot)
    }

    /// Says that a place that the seat took is scanned: it has seen all targets of the place marked.
    #[inline(always)]
    pub fn scanned(&mut self, table: &MarkTable, page: u32, slot: u16)
        requires own { IsSeatOf table.now self.old }
        requires page { page < length table.now.cut.pages }
        requires slot { slot < MOST_SLOTS }
        requires took { 0 < times page slot self.old.takes }
        requires targets { (to : Spot) → IsEdge table.now.cut page slot to → 0 < times to.page to.slot self.old.seen }
        ensures { self.new ≡ with_scan self.old page slot }
    {
        let done = word_of(page, 2);
        let one = mask(slot);
        table
            .board
            .shared
            .fetch_or::<Scanned>(&mut self.stand, done, one);
    }

    /// The mark word of a page. The seat with all parts has itself marked what is marked.
    #[inline(always)]
    pub(crate) fn marks(&mut self, table: &MarkTable, page: u32) -> u64
        requires own { IsSeatOf table.now self.old }
        requires page { page < length table.now.cut.pages }
        ensures seen { self.new ≡ with_seen self.old (marked_of page result 64) }
        ensures sound { (slot : ℕ) → bit_at result slot ≡ 1 → IsMarkAt table.now.cut page slot × (slot < MOST_SLOTS) }
        ensures whole { self.old.parts ≡ all_parts → (slot : ℕ) → times page slot self.old.claims ≡ bit_at result slot }
    {
        let word = word_of(page, 0);
        table.board.shared.load::<Look>(&mut self.stand, word)
    }

    /// The word of what is scanned of a page, with all that the seat knows to be scanned. The seat with
    /// all parts has itself marked all targets of what is scanned.
    pub(crate) fn scans(&mut self, table: &MarkTable, page: u32) -> u64
        requires own { IsSeatOf table.now self.old }
        requires page { page < length table.now.cut.pages }
        ensures same { self.new ≡ self.old }
        ensures targets { self.old.parts ≡ all_parts → (slot : ℕ) (to : Spot) → bit_at result slot ≡ 1 → IsEdge table.now.cut page slot to → 0 < times to.page to.slot self.old.claims }
        ensures known { (slot : ℕ) → 0 < times page slot self.old.scans → bit_at result slot ≡ 1 }
    {
        let word = word_of(page, 2);
        table
            .board
            .shared
            .load::<LookScanned>(&mut self.stand, word)
    }

    /// Another seat, which has seen as much and gets one part. It takes no memory.
    pub fn split(&mut self, table: &MarkTable) -> Result<MarkSeat, Memory>
        requires own { IsSeatOf table.now self.old }
        requires parts { 2 ≤ self.old.parts }
        ensures given { result ≡ Ok (split_off self.old) }
        ensures kept { self.new ≡ less_one_part self.old }
    {
        let stand = table.board.shared.split_seat::<Halve>(&mut self.stand);
        Ok(MarkSeat { stand })
    }

    /// Takes in what the other seat has seen, its marks, its takes and its parts. Of the answers of
    /// seats that were joined into one, at most one to `take_to_scan` was true for each place.
    pub fn join(&mut self, table: &MarkTable, other: MarkSeat)
        requires own { IsSeatOf table.now self.old }
        requires other { IsSeatOf table.now other }
        ensures joined { self.new ≡ joined_seats self.old other }
        ensures once { (page slot : ℕ) → times page slot self.new.takes ≤ 1 }
    {
        let MarkSeat { stand } = other;
        table
            .board
            .shared
            .join_seat::<Unite>(&mut self.stand, stand);
        table.board.shared.load::<Count>(&mut self.stand, 0);
    }
}
