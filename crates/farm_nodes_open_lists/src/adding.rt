ghost use Rattle.std.specs.Prelude.{◌≡◌, [], length, All, IfOk, OnOk};
ghost use Rattle.farm_nodes_open_lists.specs.Rows.{grown, rows_of};

use lang_base::NoMemory;
use std::alloc::Global;

/// So many lists, with nothing in them yet.
pub fn none_yet<T: Drop>(alloc: Global, count: usize) -> Result<Vec<Vec<T>>, NoMemory>
    ensures count { IfOk result (λ lists. length lists.items ≡ count) }
    ensures none { IfOk result (λ lists. All (λ row. length row ≡ 0) (rows_of lists.items)) }
{
    let mut lists = Vec::new(alloc);
    for _list in 0..count {
        match lists.push(Vec::new(alloc)) {
            Ok(()) => {}
            Err(_) => return Err(NoMemory),
        }
    }
    Ok(lists)
}

/// Adds a value to each list, of as many values. Where memory is wanting, some of the lists may have theirs.
pub fn add_each<T: Drop>(lists: &mut Vec<Vec<T>>, values: Vec<T>) -> Result<(), NoMemory>
    requires { length values.items ≡ length lists.old.items }
    ensures count { length lists.new.items ≡ length lists.old.items }
    ensures added { OnOk result (rows_of lists.new.items ≡ grown (rows_of lists.old.items) values.items) }
{
    let mut others = values.into_iter();
    for list in lists.iter_mut() {
        let Some(value) = others.next() else {
            break;
        };
        match list.push(value) {
            Ok(()) => {}
            Err(_) => return Err(NoMemory),
        }
    }
    Ok(())
}
