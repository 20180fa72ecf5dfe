// Specifications in the layout of the language.

/// Two calls whose breaking states have values that no state has.
pub const VAST: &[u8] = b"cise 1
relation up
counter c
counter d
operation big
  requires ( c >= 1000000000 )
  requires ( d >= 1000000000 * c )
  remove up
end
operation less
  add d - 1
end
";

/// A call whose requires line is broken by a call on the same element, and by one on another element only from values that no state
/// has.
pub const KEPT: &[u8] = b"cise 1
sort A
relation up ( A )
counter c
counter d
operation keep ( x : A )
  requires ( up ( x ) or ( ( d >= 1000000000 * c ) or ( c <= 1000000 ) ) )
end
operation lower ( y : A )
  remove up ( y )
  add d - 1
end
";

/// Names like those of the tokens to be, of a sort and of a parameter.
pub const NAMED: &[u8] = b"cise 1
sort t0
relation r ( t0 )
operation put ( t2 : t0 )
  insert r ( t2 )
end
operation drop ( x : t0 )
  remove r ( x )
end
";

/// What is suggested for deposits and withdrawals, with tokens or without.
pub const BANK_SUGGESTION: &[u8] = b"cise suggest 1
pairs 3
free deposit deposit
free deposit withdraw
needed withdraw withdraw
stable withdraw 2 withdraw
refuted
size Account 1
count balance 0 1
call withdraw 0 1
call withdraw 0 1
at
by a a
summary needed 1 free 2 unknown 0
complete
";

/// What is suggested for two operations on one relation.
pub const SETS_SUGGESTION: &[u8] = b"cise suggest 1
pairs 3
free put put
needed put drop
commute put drop r
refuted
size A 1
call put 0
call drop 0
at 0
by x y
free drop drop
summary needed 1 free 2 unknown 0
complete
";

/// What is suggested for players and tournaments. A person expects: adding and removing one player don't commute, nor adding and removing
/// one tournament; nobody may enroll while the player or the tournament is removed; two enrolments in one tournament may take the same last
/// seat, also of two players; and one player can't leave one tournament twice, on which either parameter tells. All else is free.
pub const TOURNAMENTS_SUGGESTION: &[u8] = b"cise suggest 1
pairs 21
free add_player add_player
needed add_player rem_player
commute add_player rem_player player
refuted
size Player 1
size Tournament 0
call add_player 0
call rem_player 0
at 0
by p p
free add_player add_tourn
free add_player rem_tourn
free add_player enroll
free add_player leave
free rem_player rem_player
free rem_player add_tourn
free rem_player rem_tourn
needed rem_player enroll
stable rem_player 1 enroll
refuted
size Player 1
size Tournament 1
true player 0
true tourn 0
count seats 0 1
call rem_player 0
call enroll 0 0
at 0
by p p
free rem_player leave
free add_tourn add_tourn
needed add_tourn rem_tourn
commute add_tourn rem_tourn tourn
refuted
size Player 0
size Tournament 1
call add_tourn 0
call rem_tourn 0
at 0
by t t
free add_tourn enroll
free add_tourn leave
free rem_tourn rem_tourn
needed rem_tourn enroll
stable rem_tourn 1 enroll
refuted
size Player 1
size Tournament 1
true player 0
true tourn 0
count seats 0 1
call rem_tourn 0
call enroll 0 0
at 0
by t t
free rem_tourn leave
needed enroll enroll
stable enroll 3 enroll
refuted
size Player 1
size Tournament 1
true player 0
true tourn 0
count seats 0 1
call enroll 0 0
call enroll 0 0
at
notby p p
stable enroll 3 enroll
refuted
size Player 2
size Tournament 1
true player 0
true player 1
true tourn 0
count seats 0 1
call enroll 0 0
call enroll 1 0
at
by t t
free enroll leave
needed leave leave
stable leave 1 leave
refuted
size Player 1
size Tournament 1
true player 0
true tourn 0
true enrolled 0 0
call leave 0 0
call leave 0 0
at
by p p
by t t
summary needed 6 free 15 unknown 0
complete
";

/// What is suggested for prices and orders. Prices are ordered among themselves and with orders, and notes are free: what a note observed
/// isn't required to stay true. Numbers are no parameters to key on.
pub const SHOP_SUGGESTION: &[u8] = b"cise suggest 1
pairs 6
needed reprice reprice
commute reprice reprice price
refuted
call reprice 1
call reprice 0
at
needed reprice order
stable order 1 reprice
refuted
call order 0
call reprice 1
at
free reprice note
free order order
free order note
free note note
summary needed 2 free 4 unknown 0
complete
";

/// What is suggested for these, up to the log of the obligation that stays open where equal elements conflict.
pub const KEPT_BEFORE: &[u8] = b"cise suggest 1
pairs 3
free keep keep
needed keep lower
stable keep 1 lower
refuted
size A 1
true up 0
count c 1000001
call keep 0
call lower 0
at
openby x y
stable keep 1 lower
undecided range ";

/// And from the end of that log on.
pub const KEPT_BEHIND: &[u8] = b"
free lower lower
summary needed 1 free 2 unknown 0
complete
";

/// What is suggested where names of tokens to be are in use.
pub const NAMED_SUGGESTION: &[u8] = b"cise suggest 1
pairs 3
free put put
needed put drop
commute put drop r
refuted
size t0 1
call put 0
call drop 0
at 0
by t2 x
free drop drop
summary needed 1 free 2 unknown 0
complete
";
