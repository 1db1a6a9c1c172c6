//! The super block.
ghost use Rattle.std.specs.Prelude.{◌≡◌, ◌≤◌, ◌<◌, ◌+◌, ℕ, Some, None, Err, IfOk, IfSome, IfNone, IsErrOf, IsTrue, OnOk, length};
ghost use Rattle.std.specs.Int.{w32, w64, from_be_bytes};
ghost use Rattle.disk_trait.specs.Causes.{Rose};
ghost use Rattle.disk_trait.specs.Disk.{piece};
ghost use Rattle.disk_trait.specs.DiskFacts.{OnlyReads};
ghost use Rattle.redo_journal.specs.Homes.{store_size};
ghost use Rattle.image_model.specs.Opening.{not_a_store, damaged, open_of};
ghost use Rattle.image_model.specs.Super.{super_at, super_of, is_page_count};
ghost use Rattle.image_model.specs.Super as model;

use crate::faults::SuperFault;
use crate::sizes::size_of;
use disk_trait::Disk;
use object_graph::MOST_PAGES;
use redo_journal::HEAD_SIZE;

/// The first eight bytes of a store, `CUTSTORE`.
const MARK: u64 = 0x4355_5453_544f_5245;

/// The version of the format.
const VERSION: u32 = 1;

/// What a super block says: the pages of the store, and which journal area is the active one.
#[derive(Clone, Copy, Debug, PartialEq, Eq)]
pub struct Super {
    pub pages: u32,
    pub area: u32,
}

fn u32_at(bytes: &[u8], at: usize) -> u32
    requires { at + 4 ≤ length bytes.now }
    ensures { result ≡ from_be_bytes w32 (piece at 4 bytes.now) }
{
    u32::from_be_bytes([bytes[at], bytes[at + 1], bytes[at + 2], bytes[at + 3]])
}

/// The number that the first eight bytes spell.
fn mark_of(bytes: &[u8]) -> u64
    requires { 8 ≤ length bytes.now }
    ensures { result ≡ from_be_bytes w64 (piece 0 8 bytes.now) }
{
    u64::from_be_bytes([
        bytes[0], bytes[1], bytes[2], bytes[3], bytes[4], bytes[5], bytes[6], bytes[7],
    ])
}

fn are_zeros(bytes: &[u8]) -> bool
    ensures { result ≡ model.are_zeros bytes.now }
{
    bytes.iter().all(|byte| *byte == 0)
}

/// Whether so many bytes from this place on are zeros.
fn has_zeros(block: &[u8; 1024], at: usize, count: usize) -> bool
    requires { at + count ≤ HEAD_SIZE }
    ensures { result ≡ model.are_zeros (piece at count block.now) }
{
    are_zeros(block.split_at(at).1.split_at(count).0)
}

/// Whether the block is a super block.
#[tactic(auto, unfolding(image_model::specs::Super::is_super))]
fn is_super(block: &[u8; 1024]) -> bool
    ensures { result ≡ model.is_super block.now }
{
    let pages = u32_at(block, 12);
    mark_of(block) == MARK
        && u32_at(block, 8) == VERSION
        && 1 <= pages
        && pages <= MOST_PAGES
        && has_zeros(block, 16, 496)
        && has_zeros(block, 513, 511)
}

/// What the block says, if it is a super block.
fn super_in(block: &[u8; 1024]) -> Option<Super>
    ensures pages { IfSome result (λ x. IsTrue (is_page_count x.pages)) }
    ensures area { IfSome result (λ x. x.area < 2) }
    ensures found { IfSome result (λ x. super_at block.now ≡ Some (record { pages = x.pages; area = x.area })) }
    ensures none { IfNone result (super_at block.now ≡ None) }
{
    if !is_super(block) {
        return None;
    }
    Some(Super {
        pages: u32_at(block, 12),
        area: u32::from(block[512] % 2),
    })
}

/// Reads the super block, and tells whether the disk is long enough for the store.
pub fn read_super<D: Disk>(disk: &mut D) -> Result<Super, SuperFault>
    ensures pages { IfOk result (λ x. IsTrue (is_page_count x.pages)) }
    ensures area { IfOk result (λ x. x.area < 2) }
    ensures long { IfOk result (λ x. store_size x.pages ≤ D.size disk.old) }

    // What the disk says, or the first thing that is wrong with it.
    ensures found { IfOk result (λ x. IfSome (D.content disk.old) (λ c. super_of c ≡ Some (record { pages = x.pages; area = x.area }))) }
    ensures none { IsErrOf result SuperFault.NotAStore → IfSome (D.content disk.old) (λ c. open_of c ≡ Err not_a_store) }
    ensures short { (at : ℕ) → result ≡ Err (SuperFault.Damaged at) → IfSome (D.content disk.old) (λ c. open_of c ≡ Err (damaged at)) }
    ensures fault { IsErrOf result SuperFault.DiskFault → Rose (D.fault_count disk.old) (D.fault_count disk.new) }
    ensures later { D.fault_count disk.old ≤ D.fault_count disk.new }
    ensures calm { OnOk result (D.fault_count disk.new ≡ D.fault_count disk.old) }
    ensures calm_none { IsErrOf result SuperFault.NotAStore → D.fault_count disk.new ≡ D.fault_count disk.old }
    ensures calm_bad { (at : ℕ) → result ≡ Err (SuperFault.Damaged at) → D.fault_count disk.new ≡ D.fault_count disk.old }

    // The disk stays as it is.
    ensures reads { OnlyReads D.Disk disk.old disk.new }
{
    let len = disk.len();
    if len < HEAD_SIZE {
        return Err(SuperFault::NotAStore);
    }
    let mut block = [0; HEAD_SIZE as usize];
    let Ok(()) = disk.read_at(0, &mut block) else {
        return Err(SuperFault::DiskFault);
    };
    let Some(found) = super_in(&block) else {
        return Err(SuperFault::NotAStore);
    };
    if len < size_of(found.pages) {
        return Err(SuperFault::Damaged { at: len });
    }
    Ok(found)
}
