//! What the words of `native` ask for.

ghost use Rattle.std.specs.Prelude.{◌≡◌, IfSome, IsNone, option_copied};
ghost use Rattle.cfarm_native.specs.Told.{text_in};
ghost use Rattle.native_text.specs.Doorways.{prefix_in};
ghost use Rattle.cfarm_program_native.specs.Chosen.{IsWrongPrefix, MayPrefix, file_of, lacks_prefix, text_asked};

use cfarm_command_line_tasks::Written;
use cfarm_native::Form;
use lang::is_name;
use native_text::Doorways;

/// The prefix, where there is one that is no C name.
pub fn wrong_prefix<'a>(prefix: Option<&'a str>) -> Option<&'a str>
    ensures some { IfSome result (λ wrong. IsWrongPrefix (option_copied prefix.entry) wrong.now) }
    ensures none { IsNone result → MayPrefix (option_copied prefix.entry) }
{
    match prefix {
        Some(prefix) => {
            if is_name(prefix.as_bytes()) {
                None
            } else {
                Some(prefix)
            }
        }
        None => None,
    }
}

/// Whether a header is asked for, and no prefix under which functions are exported.
pub fn lacks_prefix(written: Written, prefix: Option<&str>) -> bool
    ensures { result ≡ lacks_prefix written (option_copied prefix.entry) }
{
    match written {
        Written::Assembly => false,
        Written::Header => match prefix {
            Some(_prefix) => false,
            None => true,
        },
    }
}

/// The file that the text is put in; none where it is printed.
pub(crate) fn file_of<'a>(output: Option<&'a str>) -> Option<&'a str>
    ensures { option_copied result ≡ file_of (option_copied output.entry) }
{
    match output {
        Some(path) => { if path == "-" { None } else { Some(path) } }
        None => None,
    }
}

/// What C calls: main, or each function under the prefix.
fn doorways_of<'a>(prefix: Option<&'a str>) -> Doorways<'a>
    ensures { prefix_in result ≡ option_copied prefix.entry }
{
    match prefix {
        Some(prefix) => Doorways::Exported(prefix.as_bytes()),
        None => Doorways::Main,
    }
}

/// What is written. A header without a prefix is refused before.
pub(crate) fn form_of<'a>(written: Written, prefix: Option<&'a str>) -> Form<'a>
    ensures { text_in result ≡ text_asked written (option_copied prefix.entry) }
{
    match written {
        Written::Assembly => Form::Code(doorways_of(prefix)),
        Written::Header => match prefix {
            Some(prefix) => Form::Header(prefix.as_bytes()),
            None => Form::Code(Doorways::Main),
        },
    }
}
