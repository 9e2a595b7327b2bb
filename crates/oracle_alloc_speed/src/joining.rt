//! Which webs lie in one location though a move stands between them (Chaitin 1982).

use crate::classes::Classes;
use crate::limits::MOST_LOOKS;
use lang_base::NoMemory;
use oracle_graphs::weight_at;
use oracle_webs::{Places, Webs, copied_by, defined_by};
use rtl_language::Instruction;
use std::alloc::Global;

/// What is looked at, and how often it was.
#[derive(Drop)]
struct Joining<'a> {
    places: &'a Places,
    webs: &'a Webs,
    by_webs: &'a [Instruction],
    entry: u16,
    looks: u64,
}

impl Joining<'_> {
    /// Whether the class is live before the node.
    fn is_live(&mut self, classes: &mut Classes, node: u16, class: u16) -> bool {
        let span = self.places.before(node);
        self.looks = self.looks.saturating_add(1);
        for place in span.from..span.end {
            self.looks = self.looks.saturating_add(1);
            let web = self
                .webs
                .at_places
                .get(place as usize)
                .copied()
                .unwrap_or(0);
            if classes.class_of(web) == class {
                return true;
            }
        }
        false
    }

    /// Whether the node defines the first class, but by a move from the second, while the second is live behind it.
    fn is_lost(&mut self, classes: &mut Classes, node: u16, defined: u16, live: u16) -> bool {
        self.looks = self.looks.saturating_add(1);
        let Some(instruction) = self.by_webs.get(usize::from(node)) else {
            return false;
        };
        let Some(web) = defined_by(instruction) else {
            return false;
        };
        if classes.class_of(web) != defined {
            return false;
        }
        if let Some(source) = copied_by(instruction)
            && classes.class_of(source) == live
        {
            return false;
        }
        match instruction {
            Instruction::Do { successor, .. } | Instruction::Call { successor, .. } => {
                self.is_live(classes, *successor, live)
            }
            _ => false,
        }
    }

    /// Whether the second class is lost nowhere where the first is live, nor meets it at the entry.
    fn is_kept_while_live(&mut self, classes: &mut Classes, some: u16, others: u16) -> bool {
        let mut next = classes.lives.first(some);
        for _ in 0..u64::MAX {
            let Some(at) = next else {
                break;
            };
            let (node, behind) = classes.lives.at(at);
            next = behind;
            if self.is_lost(classes, node, others, some) {
                return false;
            }
            if node == self.entry && self.is_live(classes, node, others) {
                return false;
            }
        }
        true
    }

    /// Whether the second class is lost nowhere where the first is defined.
    fn is_kept_where_defined(&mut self, classes: &mut Classes, some: u16, others: u16) -> bool {
        let mut next = classes.definitions.first(some);
        for _ in 0..u64::MAX {
            let Some(at) = next else {
                break;
            };
            let (node, behind) = classes.definitions.at(at);
            next = behind;
            if self.is_lost(classes, node, some, others) {
                return false;
            }
        }
        true
    }

    /// Joins the classes of the two webs of a move, where both may lie in one location.
    fn try_move(&mut self, classes: &mut Classes, target: u16, source: u16) {
        let (target, source) = (classes.class_of(target), classes.class_of(source));
        let (some, others) = if classes.lives.size(target) < classes.lives.size(source) {
            (target, source)
        } else {
            (source, target)
        };
        if some != others
            && self.is_kept_while_live(classes, some, others)
            && self.is_kept_where_defined(classes, some, others)
        {
            classes.merge(others, some);
        }
    }
}

/// The nodes that move, those that are run most first, each as a number whose low half it is.
fn moves_of(
    alloc: Global,
    by_webs: &[Instruction],
    needless: &[bool],
    depths: &[u8],
) -> Result<Vec<u64>, NoMemory> {
    let mut moves = Vec::new(alloc);
    for (node, (instruction, is_needless)) in (0..=u16::MAX).zip(
        by_webs.iter().zip(needless.iter()),
    ) {
        if copied_by(instruction).is_some() && !*is_needless {
            let rank = u64::from(u32::MAX).saturating_sub(weight_at(depths, node));
            moves.push((rank << 16) | u64::from(node))?;
        }
    }
    moves.as_mut_slice().sort_unstable();
    Ok(moves)
}

/// Joins the webs of moves as far as they may lie in one location.
pub(crate) fn join_moves(
    alloc: Global,
    classes: &mut Classes,
    places: &Places,
    webs: &Webs,
    by_webs: &[Instruction],
    needless: &[bool],
    depths: &[u8],
    entry: u16,
) -> Result<(), NoMemory> {
    let mut joining = Joining {
        places,
        webs,
        by_webs,
        entry,
        looks: 0,
    };
    let moves = moves_of(alloc, by_webs, needless, depths)?;
    for key in &moves {
        if joining.looks > MOST_LOOKS {
            break;
        }
        if let Some(instruction) = by_webs.get((*key & 0xffff) as usize)
            && let Some(source) = copied_by(instruction)
            && let Some(target) = defined_by(instruction)
        {
            joining.try_move(classes, target, source);
        }
    }
    Ok(())
}
