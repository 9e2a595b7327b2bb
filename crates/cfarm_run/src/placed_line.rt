use c_places::Place;
use cfarm_shown_paths::ShownPath;
use std::fmt;

/// The line that compilers tell editors of a fault, with a hint where there is one.
#[derive(Clone, Copy, Debug)]
pub struct PlacedLine<'a> {
    pub path: &'a str,
    pub place: Place,
    pub sentence: &'a str,
    pub hint: &'a str,
    pub number: u16,
}

impl fmt::Display for PlacedLine<'_> {
    ghost use Rattle.std.specs.Prelude.{Some};
    ghost use Rattle.cfarm_run.specs.PlacedLines.{told_line};

    ghost output = { λ told. Some (told_line told.path.now told.place told.sentence.now told.hint.now told.number) };

    fn fmt<W: fmt::Write>(&self, f: &mut fmt::Formatter<W>) -> fmt::Result {
        let (path, sentence, number) = (ShownPath(self.path), self.sentence, self.number);
        let (line, column, hint) = (self.place.line, self.place.column, self.hint);
        if hint.is_empty() {
            write!(f, "{path}:{line}:{column}: error: {sentence} [{number}]")
        } else {
            write!(
                f,
                "{path}:{line}:{column}: error: {sentence}: {hint} [{number}]"
            )
        }
    }
}
