//! Transactions that are flushed one by one.

ghost use Rattle.std.specs.Prelude.{◌≡◌, [], ◌∷◌, map, OnOk, IfErr};
ghost use Rattle.journal.specs.Journal.{log_of, journal_failures};
ghost use Rattle.journal.specs.Log.{IsSettled};
ghost use Rattle.journal.specs.Phase.{FailsCounted};
ghost use Rattle.migration.specs.Commits.{AreTransactions, Commits, HasCommitted, FitsJournal};
ghost use Rattle.migration.specs.Migrations.{Rests};

use disk::{Device, Update};
use journal::{Journal, JournalFault};

/// Commits one transaction to the base: a crash leaves all of it or nothing.
#[tactic(auto, using(crate::proofs::Committing::both_commit))]
pub(crate) fn commit<D: Device>(
    journal: &mut Journal<D>,
    updates: Vec<Update>,
) -> Result<(), JournalFault>
    requires rests { Rests (log_of journal.old) }
    requires takes { FitsJournal (log_of journal.old).area.end updates.items }
    ensures commits { Commits D.keeps_word (updates.items ∷ [])
        (log_of journal.old) (log_of journal.new) }
    ensures ok { OnOk result (HasCommitted D.keeps_word (updates.items ∷ [])
        (log_of journal.old) (log_of journal.new)) }
    ensures settled { D.keeps_word → OnOk result (IsSettled (log_of journal.new)) }
    // If it fails
    ensures failures { FailsCounted (journal_failures journal.old) (journal_failures journal.new)
        result }
    ensures refuses { IfErr result (λ fault. fault ≡ JournalFault.Fault) }
{
    journal.apply(updates)?;
    journal.flush()?;
    Ok(())
}

/// Commits transactions to the base, in order.
pub(crate) fn commit_all<D: Device>(
    journal: &mut Journal<D>,
    transactions: Vec<Vec<Update>>,
) -> Result<(), JournalFault>
    requires rests { Rests (log_of journal.old) }
    requires takes { AreTransactions (log_of journal.old).area.end
        (map (λ updates. updates.items) transactions.items) }
    ensures commits { Commits D.keeps_word (map (λ updates. updates.items) transactions.items)
        (log_of journal.old) (log_of journal.new) }
    ensures ok { OnOk result (HasCommitted D.keeps_word
        (map (λ updates. updates.items) transactions.items)
        (log_of journal.old) (log_of journal.new)) }
    // If it fails
    ensures failures { FailsCounted (journal_failures journal.old) (journal_failures journal.new)
        result }
    ensures refuses { IfErr result (λ fault. fault ≡ JournalFault.Fault) }
{
    for updates in transactions {
        commit(journal, updates)?;
    }
    Ok(())
}
