//! Calls of functions with a body.

ghost use Rattle.std.specs.Prelude.{◌≡◌, ◌<◌, ◌≤◌, [], ◌∷◌, ◌++◌, IfOk, OnOk, IfSome, IfNone, length, map, replicate};
ghost use Rattle.c_program.specs.Meaning.{Calls};
ghost use Rattle.c_meaning.specs.Arguments.{EntersNone, Enters, CostsItsBody, Begins, BeginningCosts, BeginsBody, BodyCosts};
ghost use Rattle.c_meaning.specs.Parts.{call_tree};
ghost use Rattle.c_meaning.specs.Reaching.{Does, CostsAtMost};
ghost use Rattle.c_meaning_machine.specs.Arguments.{ArePutBehind, AreWorth};

use crate::leaving::hand_back_term;
use c_meaning_machine::{Entered, Left, Machine, Next, Scope, Waiting, enter, evaluate, same};
use c_program::{Action, Called, Function, Target, Term};
use lang_base::{NoMemory, Shown};

/// The words of arguments: whether each has one.
#[tactic(auto, using(c_meaning_machine::proofs::Placing::joined_none, c_meaning_machine::proofs::Placing::joined_more))]
fn evaluated(arguments: &[Term], scope: &Scope, words: &mut Vec<u32>) -> Result<bool, NoMemory>
    ensures { IfOk result (AreWorth arguments.now scope.now words.new.items) }
{
    words.truncate(0);
    for argument in arguments {
        match evaluate(argument, scope) {
            None => return Ok(false),
            Some(word) => words.push(word)?,
        }
    }
    Ok(true)
}

/// Words are put behind the locals.
#[tactic(auto, using(std::proofs::lemmas::List::map_push))]
fn push_words(locals: &mut Vec<Option<u32>>, words: &[u32]) -> Result<(), NoMemory>
    ensures { OnOk result (locals.new.items ≡ locals.old.items ++ map Some words.now) }
{
    for word in words {
        locals.push(Some(*word))?;
    }
    Ok(())
}

/// The only argument's word is put behind the locals: whether it has one.
#[inline(always)]
#[tactic(auto, using(c_meaning_machine::proofs::Placing::placed_none_alone, c_meaning_machine::proofs::Placing::placed_alone))]
fn push_argument(argument: &Term, scope: &mut Scope) -> Result<bool, NoMemory>
    ensures placed { IfOk result (ArePutBehind (argument.now ∷ []) scope.old scope.new) }
    ensures base { scope.new.base ≡ scope.old.base }
    ensures globals { scope.new.globals.items ≡ scope.old.globals.items }
{
    match evaluate(argument, scope) {
        None => Ok(false),
        Some(word) => {
            scope.locals.reserve(1)?;
            scope.locals.push_reserved(Some(word));
            Ok(true)
        }
    }
}

/// The arguments' words are put behind the locals: whether each has one.
#[tactic(auto, using(c_meaning_machine::proofs::Placing::placed_not, c_meaning_machine::proofs::Placing::placed_so))]
fn push_arguments(
    arguments: &[Term],
    scope: &mut Scope,
    words: &mut Vec<u32>,
) -> Result<bool, NoMemory>
    ensures placed { IfOk result (ArePutBehind arguments.now scope.old scope.new) }
    ensures base { scope.new.base ≡ scope.old.base }
    ensures globals { scope.new.globals.items ≡ scope.old.globals.items }
{
    if let [argument] = arguments {
        return push_argument(argument, scope);
    }
    if !evaluated(arguments, scope, words)? {
        return Ok(false);
    }
    push_words(&mut scope.locals, words)?;
    Ok(true)
}

/// So many indeterminate locals are put behind the others.
pub(crate) fn push_blank(locals: &mut Vec<Option<u32>>, count: usize) -> Result<(), NoMemory>
    ensures { OnOk result (locals.new.items ≡ locals.old.items ++ replicate count None) }
{
    locals.reserve(count)?;
    for _ in 0..count {
        locals.push_reserved(None);
    }
    Ok(())
}

/// The function of a number, if it takes so many parameters.
#[tactic(auto, using(std::proofs::lemmas::Option::slice_get_past, std::proofs::lemmas::Option::slice_get_within))]
pub(crate) fn function_at(
    functions: &[Function],
    number: usize,
    parameters: usize,
) -> Option<&Function>
    ensures missing { IfNone result (EntersNone functions.now number parameters) }
    ensures found { IfSome result (λ f. Enters functions.now number parameters f.now) }
    ensures cost { IfSome result (λ f. CostsItsBody functions.now number f.now) }
{
    if number < functions.len() {
        let function = &functions[number];
        if function.parameters == parameters {
            return Some(function);
        }
    }
    None
}

/// A function's body begins, whose caller does not wait yet: it waits where the body needs the stack before it returns.
#[tactic(auto, using(c_meaning_machine::proofs::Stops::resume_fails))]
fn begin_body<'a>(
    machine: &mut Machine<'a>,
    caller: Waiting<'a>,
    body: &'a [Action],
) -> Result<Next, NoMemory>
    requires { 0 < caller.bound }
    ensures meaning { IfOk result (BeginsBody machine.old machine.new caller.entry body.entry.now) }
    ensures cost { IfOk result (BodyCosts machine.old machine.new caller.entry body.entry.now) }
{
    match enter(&mut machine.scope, body) {
        Entered::Wrong => Ok(Next::Stops(Shown::Wrong)),
        Entered::Returns(term) => Ok(hand_back_term(machine, caller, term)),
        Entered::Stays(actions) => {
            machine.left.push(Left::Back(caller))?;
            machine.bound = caller.bound - 1;
            machine.actions = same(actions);
            Ok(Next::Goes)
        }
    }
}

/// The function begins. Its arguments stand behind the end of the callers' locals.
fn begin<'a>(
    machine: &mut Machine<'a>,
    target: Target,
    end: usize,
    function: &'a Function,
) -> Result<Next, NoMemory>
    requires bound { 0 < machine.old.bound }
    requires end { end ≤ length machine.old.scope.locals.items }
    ensures meaning { IfOk result (Begins machine.old machine.new target end function.now) }
    ensures cost { IfOk result (BeginningCosts machine.old machine.new function.now) }
{
    push_blank(
        &mut machine.scope.locals,
        function.locals.saturating_sub(function.parameters),
    )?;
    let caller = Waiting {
        ending: function.ending,
        target,
        base: machine.scope.base,
        bound: machine.bound,
        actions: same(machine.actions),
    };
    machine.scope.base = end;
    let next = begin_body(machine, caller, function.body.as_slice())?;
    Ok(next)
}

/// A call: first its arguments, then the bound, then the body.
pub fn call<'a>(
    machine: &mut Machine<'a>,
    target: Target,
    called: &'a Called,
) -> Result<Next, NoMemory>
    ensures meaning { IfOk result (Does machine.old machine.new (call_tree target called.now)) }
    ensures cost { IfOk result (CostsAtMost machine.old machine.new (Calls called.now.function [])) }
{
    let end = machine.scope.locals.len();
    let arguments = called.arguments.as_slice();
    if !push_arguments(arguments, &mut machine.scope, &mut machine.words)? {
        return Ok(Next::Stops(Shown::Wrong));
    }
    if machine.bound == 0 {
        return Ok(Next::Stops(Shown::Running));
    }
    match function_at(machine.functions, called.function, arguments.len()) {
        None => Ok(Next::Stops(Shown::Wrong)),
        Some(function) => {
            let next = begin(machine, target, end, function)?;
            Ok(next)
        }
    }
}
