//! What numbers keep of calls and stores.
ghost use Rattle.grb_call.specs.Store.{Store};
ghost use Rattle.grb_numbers.specs.Laws.{CallsAnswerTheSame, CallsAreRefusedAlike, CallsLeaveTheSame, FirstNumbersKeepAnswers, FirstNumbersKeepCalls, FirstNumbersShowTheStore, HistoriesLeaveTheSame, LiveNumbersAreAll, NextNumbersShowTheSame, SeenStoresAreWhole};

/// A call on the store as it is seen from outside is the call by inner numbers on the store: it is refused alike, answers the same and
/// leaves the same, as it is seen from outside. So do calls in turn, for as many as `Numbers::has_room` has room.
pub fn calls_commute()
    ensures refusals { CallsAreRefusedAlike }
    ensures answers { CallsAnswerTheSame }
    ensures after { CallsLeaveTheSame }
    ensures histories { HistoriesLeaveTheSame }
{}

/// What is whole inside is seen whole.
pub fn seen_stores_are_whole()
    ensures { SeenStoresAreWhole }
{}

/// The next generation begins with what this one ends with, as both are seen from outside.
pub fn next_numbers_show_the_same()
    ensures { NextNumbersShowTheSame }
{}

/// The numbers of the objects that are there, in rising order, are such as the next generation may begin with.
pub fn live_numbers_are_all()
    ensures { (s : Store) → LiveNumbersAreAll s }
{}

/// With the first numbers a store is seen as it is, a call is the same inside, and its answer the same outside.
pub fn first_numbers_change_nothing()
    ensures stores { FirstNumbersShowTheStore }
    ensures calls { FirstNumbersKeepCalls }
    ensures answers { FirstNumbersKeepAnswers }
{}
