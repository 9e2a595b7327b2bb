//! What texts of old journals are worth, as contracts of calls that do nothing else.

ghost use Rattle.std.specs.Prelude.{◌≡◌, ℕ, List, Some};
ghost use Rattle.acceptor_log_form.specs.declared.header.Header.{Header};
ghost use Rattle.acceptor_log_form.specs.declared.record.Record.{Record};
ghost use Rattle.acceptor_log_form.specs.declared.errors.LogError.{LogError};
ghost use Rattle.acceptor_log_old.specs.OldText.{OldStandsFor, old_listed};
ghost use Rattle.acceptor_log_old.specs.OldFault.{HasOldFault};
ghost use Rattle.acceptor_log_old.specs.OldLaws.{EvenNodesAreRefused, OldJournalsHaveNoFault, OldJournalsHaveOneHeader};

/// The list that bytes stand for is the one that they are read as, so they stand for no other.
pub fn one_old_list()
    ensures { (h : Header) (rs : List Record) (bytes : List ℕ) → OldStandsFor h rs bytes → old_listed h bytes ≡ Some rs }
{}

/// Bytes are the old journal of one header: the forms are told apart, and each tells all five parts.
pub fn one_old_header()
    ensures { OldJournalsHaveOneHeader }
{}

/// Bytes that stand for records as the old journal with a header are not refused as that journal.
pub fn no_old_fault()
    ensures { OldJournalsHaveNoFault }
{}

/// No bytes have two faults.
pub fn one_old_fault()
    ensures { (h : Header) (bytes : List ℕ) (d e : LogError) → HasOldFault h bytes d → HasOldFault h bytes e → d ≡ e }
{}

/// The first form with an even number of nodes is another source's, whatever header is asked for.
pub fn even_nodes()
    ensures { EvenNodesAreRefused }
{}
