//! Reading the fields of a record.
ghost use Rattle.std.specs.Prelude.{◌≡◌, ◌≤◌, ◌<◌, ◌+◌, ◌*◌, ◌^◌, Ok, Err, length, take, drop, IfOk};
ghost use Rattle.std.specs.Int.{w32, from_be_bytes};
ghost use Rattle.page_image.specs.Fields.{page_at};
ghost use Rattle.redo_journal.specs.Area.{base_in};
ghost use Rattle.redo_journal.specs.Judging.{AreaGives};
ghost use Rattle.redo_journal.specs.Record.{is_count, kind_at, count_at, image_at};
ghost use Rattle.redo_journal.specs.Results.{from_place};
ghost use Rattle.redo_journal.specs.declared.kind.Kind.TheVariants.{Commit};

use crate::faults::AreaFault;
use crate::kind::Kind;
use crate::sizes::{FRAME_SIZE, IMAGE_SIZE, PAGE_SIZE};
use object_graph::{MOST_COUNTED, MOST_WRITTEN};
use page_image::Page;

/// The base of an area.
pub(crate) fn base_of(bytes: &[u8]) -> u64
    requires { 8 ≤ length bytes.now }
    ensures { result ≡ base_in bytes.now }
{
    u64::from_be_bytes([
        bytes[0], bytes[1], bytes[2], bytes[3], bytes[4], bytes[5], bytes[6], bytes[7],
    ])
}

fn u32_of(bytes: &[u8]) -> u32
    requires { 4 ≤ length bytes.now }
    ensures { result ≡ from_be_bytes w32 (take 4 bytes.now) }
{
    u32::from_be_bytes([bytes[0], bytes[1], bytes[2], bytes[3]])
}

/// The kind of a record that stands behind so many commits.
#[tactic(auto, unfolding(crate::specs::Record::kind_at))]
pub(crate) fn kind_of(byte: u8, place: u64, done: u64) -> Result<Kind, AreaFault>
    ensures value { AreaGives (kind_at place done byte) result }
    ensures unspent { IfOk result (λ kind. kind ≡ Commit → done < MOST_COUNTED) }
{
    match byte {
        1 if done < MOST_COUNTED => Ok(Kind::Commit),
        2 => Ok(Kind::Sweep),
        _ => Err(AreaFault::BadRecord { at: place }),
    }
}

/// Whether a record of this kind may have so many pages.
fn is_right(kind: Kind, count: u32) -> bool
    ensures { result ≡ is_count kind count }
{
    match kind {
        Kind::Commit => count as usize <= MOST_WRITTEN,
        Kind::Sweep => count == 1,
    }
}

/// The count of a record, from the bytes of its kind on.
pub(crate) fn count_of(bytes: &[u8], kind: Kind, place: u64) -> Result<u32, AreaFault>
    requires { 1 ≤ length bytes.now }
    ensures value { AreaGives (count_at place kind (length bytes.now) (from_be_bytes w32 (take 4 (drop 1 bytes.now)))) result }
    ensures room { IfOk result (λ count. FRAME_SIZE + IMAGE_SIZE * count ≤ length bytes.now) }
    ensures few { IfOk result (λ count. count ≤ MOST_WRITTEN) }
{
    if bytes.len() < 5 {
        return Err(AreaFault::BadRecord { at: place });
    }
    let count = u32_of(bytes.split_at(1).1);
    if is_right(kind, count) && FRAME_SIZE + IMAGE_SIZE * count as usize <= bytes.len() {
        Ok(count)
    } else {
        Err(AreaFault::BadRecord { at: place })
    }
}

/// The page that these bytes spell.
fn page_of(bytes: &[u8], place: u64) -> Result<Page, AreaFault>
    requires long { PAGE_SIZE ≤ length bytes.now }
    requires small { place < 2 ^ 41 }
    ensures { AreaGives (from_place place (page_at (take PAGE_SIZE bytes.now))) result }
{
    let mut image = [0; PAGE_SIZE];
    image.copy_from_slice(bytes.split_at(PAGE_SIZE).0);
    match Page::decode(&image) {
        Ok(page) => Ok(page),
        Err(wrong) => Err(AreaFault::BadRecord {
            at: place + u64::from(wrong.at),
        }),
    }
}

/// A page with its number, which is at least `low`.
pub(crate) fn image_of(bytes: &[u8], pages: u32, place: u64, low: u32) -> Result<Page, AreaFault>
    requires long { IMAGE_SIZE ≤ length bytes.now }
    requires small { place < 2 ^ 40 }
    ensures value { AreaGives (image_at pages place low bytes.now) result }
    ensures below { IfOk result (λ page. page.number < pages) }
{
    let number = u32_of(bytes);
    if number < low || number >= pages {
        return Err(AreaFault::BadRecord { at: place });
    }
    let page = page_of(bytes.split_at(4).1, place + 4)?;
    if page.number() == number {
        Ok(page)
    } else {
        Err(AreaFault::BadRecord { at: place + 8 })
    }
}
