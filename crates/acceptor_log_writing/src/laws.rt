//! Which text a journal has, and what one of two lists is, as contracts of calls that do nothing else.

ghost use Rattle.std.specs.Prelude.{◌≡◌, []};
ghost use Rattle.acceptor_log_form.specs.declared.header.Header.{Header};
ghost use Rattle.acceptor_log_form.specs.Text.{journal_text};
ghost use Rattle.acceptor_log_writing.specs.Written.{with_journal, TextGrows, TextGrowsByAll};
ghost use Rattle.acceptor_log_writing.specs.OneOf.{EitherIsBetween};

/// A journal that is made on an empty disk is the text of no records, and one more record, or so many at once, make the text
/// of the list with them: each list of records has one text on such a disk, however it was put down.
pub fn text_grows()
    ensures made { (h : Header) → with_journal h [] ≡ journal_text h [] }
    ensures grown { TextGrows }
    ensures by_all { TextGrowsByAll }
{}

/// One of two lists, the first of which begins the second, is between them.
pub fn either_between()
    ensures { EitherIsBetween }
{}
