//! The numbers of names.

ghost use Rattle.std.specs.Prelude.{◌≡◌, ◌<◌, length, IfOk};
ghost use Rattle.c_checker_scopes.specs.Table.{names_of, name_of, KeepsNames, StaysTable};

use indexmap::IndexSet;
use lang_base::NoMemory;

/// The symbol of a name. A name that had none gets the next one, and a row in `latest`.
pub(crate) fn symbol_for(
    symbols: &mut IndexSet<Vec<u8>>,
    latest: &mut Vec<Option<usize>>,
    name: &[u8],
) -> Result<usize, NoMemory>
    ensures within { IfOk result (λ symbol. symbol < length (names_of symbols.new.keys)) }
    ensures named { IfOk result (λ symbol. name_of (names_of symbols.new.keys) symbol ≡ name.now) }

    // Whatever entries there are, they bind what they bound, and the table is right for them.
    ensures names { KeepsNames (names_of symbols.old.keys) (names_of symbols.new.keys) }
    ensures table { StaysTable
        (names_of symbols.old.keys) latest.old.items
        (names_of symbols.new.keys) latest.new.items }
{
    if let Some(symbol) = symbols.get_index_of(name) {
        return Ok(symbol);
    }
    let alloc = *latest.allocator();
    let key = Vec::from_slice(alloc, name)?;
    if latest.len() == symbols.len() {
        latest.push(None)?;
    }
    let (symbol, _) = symbols.insert_full(key)?;
    Ok(symbol)
}
