//! Pages as their homes spell them, or as the journal's images have them.
ghost use Rattle.std.specs.Prelude.{◌≡◌, ◌≤◌, ◌<◌, ◌+◌, ◌*◌, ◌/◌, ℕ, List, Err, IfOk, IfSome, IsErrOf, OnOk, length};
ghost use Rattle.disk_trait.specs.Disk.{piece};
ghost use Rattle.object_graph.specs.Slots.{below};
ghost use Rattle.redo_journal.specs.Homes.{home_start};
ghost use Rattle.redo_journal.specs.Record.{numbers_of};
ghost use Rattle.redo_journal.specs.Replays.{image_among};
ghost use Rattle.redo_journal.specs.Results.{from_place};
ghost use Rattle.image_model.specs.Opening.{home_at, or_spelled};
ghost use Rattle.recovery.specs.Reading.{Gives, AreFirstPages, IsWrongPage, IsAhead};

use crate::faults::OpenFault;
use crate::sizes::home_of;
use object_graph::MOST_PAGES;
use page_image::Page;
use redo_journal::PAGE_SIZE;

/// The page that a home spells.
fn page_of(bytes: &[u8; 1024], page: u32) -> Result<Page, OpenFault>
    requires { page < MOST_PAGES }
    ensures read { Gives (from_place (home_start page) (home_at page bytes.now)) result }
    ensures number { IfOk result (λ p. p.number ≡ page) }
    ensures disk { IsErrOf result OpenFault.DiskFault → ⊥ }
    ensures store { IsErrOf result OpenFault.NotAStore → ⊥ }
    ensures memory { IsErrOf result OpenFault.Memory → ⊥ }
{
    match Page::decode(bytes) {
        Ok(found) => {
            if found.number() == page {
                Ok(found)
            } else {
                Err(OpenFault::Damaged {
                    at: home_of(page) + 4,
                })
            }
        }
        Err(bad) => Err(OpenFault::Damaged {
            at: home_of(page) + u64::from(bad.at),
        }),
    }
}

/// The image of a page among these, which is the next one of them or isn't there.
fn take_image(images: &[Page], next: &mut usize, page: u32) -> Option<Page>
    requires { IsAhead images.now next.old page }
    ensures image { result ≡ image_among images.now page }
    ensures number { IfSome result (λ p. p.number ≡ page) }
    ensures ahead { IsAhead images.now next.new (page + 1) }
{
    let at = *next;
    if at >= images.len() {
        return None;
    }
    if images[at].number() != page {
        return None;
    }
    *next = at + 1;
    Some(images[at])
}

/// The image of a page among these, or what its home spells.
fn page_from(
    images: &[Page],
    next: &mut usize,
    home: &[u8; 1024],
    page: u32,
) -> Result<Page, OpenFault>
    requires few { page < MOST_PAGES }
    requires ahead { IsAhead images.now next.old page }
    ensures read { Gives (or_spelled (image_among images.now page) page home.now) result }
    ensures number { IfOk result (λ p. p.number ≡ page) }
    ensures ahead { IsAhead images.now next.new (page + 1) }
    ensures disk { IsErrOf result OpenFault.DiskFault → ⊥ }
    ensures store { IsErrOf result OpenFault.NotAStore → ⊥ }
    ensures memory { IsErrOf result OpenFault.Memory → ⊥ }
{
    match take_image(images, next, page) {
        Some(image) => Ok(image),
        None => page_of(home, page),
    }
}

/// One of the homes that stand in these bytes one behind the other.
fn home_in(bytes: &[u8], at: usize) -> &[u8; 1024]
    requires { PAGE_SIZE * at + PAGE_SIZE ≤ length bytes.now }
    ensures { result.now ≡ piece (PAGE_SIZE * at) PAGE_SIZE bytes.now }
{
    let home = bytes.split_at(PAGE_SIZE * at).1.split_at(PAGE_SIZE).0;
    let Ok(home) = <&[u8; 1024]>::try_from(home) else {
        unreachable!();
    };
    home
}

/// Reads the pages whose homes these bytes are, behind those that were read before.
pub(crate) fn read_homes_in(
    images: &[Page],
    next: &mut usize,
    bytes: &[u8],
    pages: &mut Vec<Page>,
) -> Result<(), OpenFault>
    requires few { length pages.old.items + length bytes.now / PAGE_SIZE ≤ MOST_PAGES }
    requires ahead { IsAhead images.now next.old (length pages.old.items) }
    ensures ahead { OnOk result (IsAhead images.now next.new (length pages.new.items)) }
    ensures more { OnOk result (length pages.new.items ≡ length pages.old.items + length bytes.now / PAGE_SIZE) }
    ensures read { OnOk result ((file : List ℕ) → bytes.now ≡ piece (home_start (length pages.old.items)) (length bytes.now) file
        → AreFirstPages images.now file pages.old.items → AreFirstPages images.now file pages.new.items) }
    ensures bad { (at : ℕ) → result ≡ Err (OpenFault.Damaged at) → (file : List ℕ) (count : ℕ) → bytes.now ≡ piece (home_start (length pages.old.items)) (length bytes.now) file
        → AreFirstPages images.now file pages.old.items → length pages.old.items + length bytes.now / PAGE_SIZE ≤ count → IsWrongPage images.now file count at }
    ensures numbered { OnOk result (numbers_of pages.old.items ≡ below (length pages.old.items) → numbers_of pages.new.items ≡ below (length pages.new.items)) }
    ensures disk { IsErrOf result OpenFault.DiskFault → ⊥ }
    ensures store { IsErrOf result OpenFault.NotAStore → ⊥ }
{
    'homes: for at in 0..bytes.len() / PAGE_SIZE {
        let found = page_from(images, next, home_in(bytes, at), pages.len() as u32)?;
        let Ok(()) = pages.push(found) else {
            return Err(OpenFault::Memory);
        };
    }
    Ok(())
}
