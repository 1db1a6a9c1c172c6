//! The calls that the transactions answer.
ghost use Rattle.std.specs.Prelude.{◌≡◌};
ghost use Rattle.transactions.specs.Standing.{IsReadyForSome};
ghost use Rattle.transactions.specs.Calls.{TransactsWell};
ghost use Rattle.cut_core.specs.Calls.{IsOfTransaction};
ghost use Rattle.cut_core.specs.Touched.{TouchesWell};

use object_graph::{Call, Reply, Steps};
use std::sync::ledger::Ledger;
use transactions::Transactions;

/// One call of an open transaction that commits nothing, and its reply.
#[inline(never)]
pub fn transact<L: Ledger>(
    transactions: &mut Transactions,
    call: &Call,
    steps: &mut Steps<L>,
) -> Reply
    requires ready { IsReadyForSome transactions.old }
    requires which { IsOfTransaction call.now }
    ensures steps { TransactsWell transactions.old transactions.new call.now result }
    ensures frames { TouchesWell transactions.old transactions.new call.now result }
{
    match *call {
        Call::Begin { txn } => Reply::done(transactions.begin(txn)),
        Call::Get { txn, name, field } => Reply::reference(transactions.get(
            txn, name, field, steps,
        )),
        Call::Number { txn, name } => Reply::number(transactions.number(txn, name, steps)),
        Call::Set {
            txn,
            name,
            field,
            target,
        } => Reply::done(transactions.set(txn, name, field, target, steps)),
        Call::Put { txn, name, value } => Reply::done(transactions.put(txn, name, value, steps)),
        Call::New { txn, page } => Reply::made(transactions.create(txn, page, steps)),
        Call::Abort { txn } => Reply::done(transactions.abort(txn)),
        _ => unreachable!(),
    }
}
