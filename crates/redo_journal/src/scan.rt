//! Reading an area's records.
ghost use Rattle.std.specs.Prelude.{◌≡◌, ◌≤◌, ◌<◌, ◌+◌, ◌*◌, ◌++◌, List, Ok, length, vec_capacity, IfOk, OnOk, MatchResult, []};
ghost use Rattle.std.specs.List.{All};
ghost use Rattle.page_image.specs.Pages.{PageParts};
ghost use Rattle.redo_journal.specs.Area.{read_area, first_gate};
ghost use Rattle.redo_journal.specs.Judging.{IsAreaFaultIn};
ghost use Rattle.redo_journal.specs.Places.{IsPlace, places_of, places_in};
ghost use Rattle.redo_journal.specs.Record.{RecordParts, images_at, record_at, grammar, commits_in, commits_of};
ghost use Rattle.redo_journal.specs.Replays.{AreLatest, IsLaidOver, images_in};
ghost use Rattle.redo_journal.specs.Walk.{bytes_taken};
ghost use Rattle.redo_journal.specs.declared.kind.Kind.TheVariants.{Commit};

use crate::faults::AreaFault;
use crate::fields::{base_of, count_of, image_of, kind_of};
use crate::kind::Kind;
use crate::places::ImagePlace;
use crate::replay::{Replay, lay};
use crate::sizes::{AREA_SIZE, FRAME_SIZE, HOMES_START, IMAGE_SIZE, MOST_IMAGES};
use object_graph::{MOST_COUNTED, MOST_WRITTEN};
use page_image::Page;
use std::alloc::Global;

/// Reads so many pages of a record, lays them over the latest images and notes their places.
fn images_of(
    bytes: &[u8],
    pages: u32,
    place: u64,
    count: u32,
    latest: &mut Vec<Page>,
    places: &mut Vec<ImagePlace>,
) -> Result<(), AreaFault>
    requires long { IMAGE_SIZE * count ≤ length bytes.now }
    requires few { count ≤ MOST_WRITTEN }
    requires within { place + length bytes.now ≤ HOMES_START }
    requires kept { AreLatest pages latest.old.items }
    requires room { length places.old.items + count ≤ vec_capacity places.old }
    requires places { All (IsPlace pages) places.old.items }
    ensures read { MatchResult result
        (λ _. (images : List PageParts) × (images_at pages place 0 count bytes.now ≡ Ok images) × (length images ≡ count)
        × IsLaidOver images latest.old.items latest.new.items × AreLatest pages latest.new.items
        × (places.new.items ≡ places.old.items ++ places_of place images))
        (λ fault. IsAreaFaultIn (images_at pages place 0 count bytes.now) fault) }
    ensures places { OnOk result (All (IsPlace pages) places.new.items) }
    ensures reserved { OnOk result (vec_capacity places.new ≡ vec_capacity places.old) }
{
    let mut rest = bytes;
    let mut at = place;
    let mut low = 0;
    let mut left = count;
    while left > 0 {
        let image = image_of(rest, pages, at, low)?;
        low = image.number() + 1;
        let Ok(()) = lay(latest, image, pages) else {
            return Err(AreaFault::Memory);
        };
        places.push_reserved(ImagePlace {
            page: image.number(),
            at: at + 4,
        });
        rest = rest.split_at(IMAGE_SIZE).1;
        at += IMAGE_SIZE as u64;
        left -= 1;
    }
    Ok(())
}

/// What a record is of, and how many pages it has.
#[derive(Clone, Copy)]
struct Head {
    kind: Kind,
    count: u32,
}

/// Reads a record, which stands behind so many commits.
fn record_of(
    bytes: &[u8],
    pages: u32,
    place: u64,
    done: u64,
    latest: &mut Vec<Page>,
    places: &mut Vec<ImagePlace>,
) -> Result<Head, AreaFault>
    requires within { place + length bytes.now ≤ HOMES_START }
    requires kept { AreLatest pages latest.old.items }
    requires room { IMAGE_SIZE * length places.old.items + length bytes.now ≤ AREA_SIZE }
    requires reserved { MOST_IMAGES ≤ vec_capacity places.old }
    requires places { All (IsPlace pages) places.old.items }
    ensures read { MatchResult result
        (λ head. (images : List PageParts) × (record_at pages place done bytes.now ≡ Ok (record { kind = head.kind; images = images })) × (length images ≡ head.count)
        × IsLaidOver images latest.old.items latest.new.items × AreLatest pages latest.new.items
        × (places.new.items ≡ places.old.items ++ places_of (place + 5) images))
        (λ fault. IsAreaFaultIn (record_at pages place done bytes.now) fault) }
    ensures places { OnOk result (All (IsPlace pages) places.new.items) }
    ensures reserved { OnOk result (vec_capacity places.new ≡ vec_capacity places.old) }
    ensures room { IfOk result (λ head. FRAME_SIZE + IMAGE_SIZE * head.count ≤ length bytes.now) }
    ensures unspent { IfOk result (λ head. head.kind ≡ Commit → done < MOST_COUNTED) }
{
    if bytes.is_empty() {
        return Err(AreaFault::BadRecord { at: place });
    }
    let kind = kind_of(bytes[0], place, done)?;
    let count = count_of(bytes, kind, place + 1)?;
    let images = bytes.split_at(5).1;
    images_of(images, pages, place + 5, count, latest, places)?;
    Ok(Head { kind, count })
}

/// What an area holds, where its first closed gate stands, and where its images stand, oldest first.
#[derive(Drop)]
pub(crate) struct Scanned {
    pub(crate) replay: Replay,
    pub(crate) end: u64,
    pub(crate) places: Vec<ImagePlace>,
}

/// How many commits a record counts for.
pub(crate) fn counted(kind: Kind) -> u64
    ensures { result ≡ commits_of kind }
{
    match kind {
        Kind::Commit => 1,
        Kind::Sweep => 0,
    }
}

/// Reads the records of an area that begins at this place of the store file.
pub(crate) fn scan(
    alloc: Global,
    bytes: &[u8],
    pages: u32,
    start: u64,
) -> Result<Scanned, AreaFault>
    requires whole { length bytes.now ≡ AREA_SIZE }
    requires before { start + AREA_SIZE ≤ HOMES_START }
    ensures counted { IfOk result (λ found. found.replay.base + found.replay.commits ≤ MOST_COUNTED) }
    ensures within { IfOk result (λ found. found.end < AREA_SIZE) }
    ensures kept { IfOk result (λ found. AreLatest pages found.replay.images.items) }
    ensures places { IfOk result (λ found. All (IsPlace pages) found.places.items) }
    ensures few { IfOk result (λ found. IMAGE_SIZE * length found.places.items ≤ found.end) }
    ensures reserved { IfOk result (λ found. MOST_IMAGES ≤ vec_capacity found.places) }
    ensures read { MatchResult result
        (λ found. (records : List RecordParts)
        × (read_area (grammar pages) start bytes.now ≡ Ok (record { base = found.replay.base; records = records }))
        × (found.end ≡ first_gate + bytes_taken (grammar pages) records) × (found.replay.commits ≡ commits_in records)
        × IsLaidOver (images_in records) [] found.replay.images.items
        × (found.places.items ≡ places_in (start + first_gate) records))
        (λ fault. IsAreaFaultIn (read_area (grammar pages) start bytes.now) fault) }
{
    let base = base_of(bytes);
    if base > MOST_COUNTED {
        return Err(AreaFault::BadRecord { at: start });
    }
    let mut end = 8;
    let mut commits = 0;
    let mut images = Vec::new(alloc);
    let Ok(mut places) = Vec::with_capacity(alloc, MOST_IMAGES) else {
        return Err(AreaFault::Memory);
    };
    while bytes[end] == 1 {
        let behind = bytes.split_at(end + 1).1;
        let place = start + end as u64 + 1;
        let head = record_of(
            behind,
            pages,
            place,
            base + commits,
            &mut images,
            &mut places,
        )?;
        end += FRAME_SIZE + IMAGE_SIZE * head.count as usize;
        commits += counted(head.kind);
    }
    let replay = Replay {
        base,
        commits,
        images,
    };
    Ok(Scanned {
        replay,
        end: end as u64,
        places,
    })
}
