ghost use Rattle.rooms_function.specs.Met.{IsOneFunction, Met};

use crate::seat::FunctionSeat;
use rooms::Meeting;

/// What two seats of one function have learned, pass by pass.
#[derive(Clone, Copy, Debug, PartialEq, Eq)]
pub struct FunctionMeeting {
    pub first: Meeting,
    pub second: Meeting,
    pub third: Meeting,
    pub fourth: Meeting,
}

/// Two seats of one function tell each other what they have seen, pass by pass, and each loads every word of the table once.
pub fn meet_functions(first: &mut FunctionSeat, second: &mut FunctionSeat) -> FunctionMeeting
    requires { IsOneFunction first.old second.old }
    ensures first { Met result.first first.old.first second.old.first first.new.first second.new.first }
    ensures second { Met result.second first.old.second second.old.second first.new.second second.new.second }
    ensures third { Met result.third first.old.third second.old.third first.new.third second.new.third }
    ensures fourth { Met result.fourth first.old.fourth second.old.fourth first.new.fourth second.new.fourth }
{
    FunctionMeeting {
        first: rooms::meet_seats(&mut first.first, &mut second.first),
        second: rooms::meet_seats(&mut first.second, &mut second.second),
        third: rooms::meet_seats(&mut first.third, &mut second.third),
        fourth: rooms::meet_seats(&mut first.fourth, &mut second.fourth),
    }
}
