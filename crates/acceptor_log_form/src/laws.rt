//! What texts of journals are worth, as contracts of calls that do nothing else.

ghost use Rattle.std.specs.Prelude.{◌≡◌, ℕ, List, Some, All, length};
ghost use Rattle.acceptor_log_form.specs.declared.header.Header.{Header};
ghost use Rattle.acceptor_log_form.specs.declared.record.Record.{Record};
ghost use Rattle.acceptor_log_form.specs.declared.errors.LogError.{LogError};
ghost use Rattle.acceptor_log_form.specs.Text.{journal_text, Fits, StandsFor};
ghost use Rattle.acceptor_log_form.specs.Reading.{listed};
ghost use Rattle.acceptor_log_form.specs.Fault.{HasFault};
ghost use Rattle.acceptor_log_form.specs.TextLaws.{BetweenHasNoFault, JournalsHaveNoFault, OthersAreRefused, ReadsBetween, WithOrWithout};

/// The list that bytes stand for is the one that they are read as, so they stand for no other.
pub fn one_list()
    ensures { (h : Header) (rs : List Record) (bytes : List ℕ) → StandsFor h rs bytes → listed h bytes ≡ Some rs }
{}

/// Bytes are the journal of one header: it tells all five parts.
pub fn one_header()
    ensures { (g h : Header) (xs ys : List Record) (bytes : List ℕ) → StandsFor g xs bytes → StandsFor h ys bytes
        → g ≡ h }
{}

/// As the journal with any other header they are refused as another source's.
pub fn other_header()
    ensures { OthersAreRefused }
{}

/// What is written stands for what was written.
pub fn text_stands()
    ensures { (h : Header) (rs : List Record) → length h.digest ≡ 32 → All Fits rs
        → StandsFor h rs (journal_text h rs) }
{}

/// Bytes that stand for records as the journal with a header are not refused as that journal.
pub fn no_fault()
    ensures { JournalsHaveNoFault }
{}

/// No bytes have two faults: what is not in form is no journal, whatever stands in it, and the header is looked at
/// before the records.
pub fn one_fault()
    ensures { (h : Header) (bytes : List ℕ) (d e : LogError) → HasFault h bytes d → HasFault h bytes e → d ≡ e }
{}

/// What is read of bytes that are between two lists, as those that a crash leaves: a list that begins with the first and
/// begins the second. They are not refused.
pub fn read_between()
    ensures lists { ReadsBetween }
    ensures no_fault { BetweenHasNoFault }
{}

/// Between a list and that with one record more there is no other.
pub fn with_or_without()
    ensures { WithOrWithout }
{}
