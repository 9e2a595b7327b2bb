ghost use Rattle.std.specs.Prelude.{◌≡◌, length};
ghost use Rattle.ints.specs.Conditions.{cond_argument_count_of};
ghost use Rattle.ints.specs.CondTable.{cond_table};

use crate::conditions::Cond;

/// Whether the condition holds of these words.
#[tactic(auto, unfolding(crate::specs::Conditions::cond_argument_count_of, crate::specs::CondTable::cond_table))]
pub fn eval_cond(cond: Cond, args: &[u32]) -> bool
    requires { length args.now ≡ cond_argument_count_of cond }
    ensures { result ≡ cond_table cond args.now }
{
    match cond {
        Cond::Nz => args[0] != 0,
        Cond::Eq => args[0] == args[1],
        Cond::Ne => args[0] != args[1],
        Cond::LtS => args[0].cast_signed() < args[1].cast_signed(),
        Cond::LtU => args[0] < args[1],
        Cond::LeS => args[0].cast_signed() <= args[1].cast_signed(),
        Cond::LeU => args[0] <= args[1],
    }
}
