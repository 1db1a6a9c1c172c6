//! Those admitted, in the order of their admission.
ghost use Rattle.std.specs.Prelude.{◌≡◌, ◌==◌, false, not, filter, nat_eq, IfNone, IfSome, IsSomeAnd, slice_get, vec_capacity};
ghost use Rattle.std.specs.List.{IsDistinct};
ghost use Rattle.page_locks.specs.Sets.{is_among};
ghost use Rattle.page_locks.specs.Places.{numbers_in};

/// A transaction that is admitted, and its place.
#[derive(Clone, Copy, Debug)]
pub struct Admitted {
    pub txn: u32,
    pub place: usize,
}

/// Takes out a transaction.
pub fn drop_admitted(admitted: &mut Vec<Admitted>, txn: u32)
    requires distinct { IsDistinct nat_eq (numbers_in admitted.old.items) }
    ensures kept { admitted.new.items ≡ filter (λ a. not (a.txn == txn)) admitted.old.items }
    ensures capacity { vec_capacity admitted.new ≡ vec_capacity admitted.old }
{
    if let Some(at) = rank(admitted, txn) {
        admitted.remove(at);
    }
}

/// Where a transaction stands in the order.
fn rank(admitted: &[Admitted], txn: u32) -> Option<usize>
    ensures some { IfSome result (λ at. IsSomeAnd (slice_get admitted.now at) (λ a. a.txn ≡ txn)) }
    ensures none { IfNone result (is_among (numbers_in admitted.now) txn ≡ false) }
{
    'admitted: for (at, one) in admitted.iter().enumerate() {
        if one.txn == txn {
            return Some(at);
        }
    }
    None
}
