// Specifications that the tests of several layers share, as texts of the language.
#![tactic(auto)]

/// A flag that begins up, and stays up.
pub const FLAG: &[u8] = b"cise 1
relation up
initially up true
invariant alive up
";

/// A set of elements, which are put in and dropped.
pub const SETS: &[u8] = b"cise 1
sort A
relation r ( A )
operation put ( x : A )
  insert r ( x )
end
operation drop ( y : A )
  remove r ( y )
end
";

/// Rooms that are free at first, one of which has to be.
pub const ROOMS: &[u8] = b"cise 1
sort Room
relation free ( Room )
relation busy
initially free true
operation start
  requires exists r : Room . free ( r )
  insert busy
end
";

/// Accounts with deposits, whose balances may not fall below 0.
pub const DEPOSITS: &[u8] = b"cise 1
sort Account
counter balance ( Account )
invariant solvent forall a : Account . ( balance ( a ) >= 0 )
operation deposit ( a : Account , n : int )
  requires ( n >= 0 )
  add balance ( a ) n
end
";

/// The same with withdrawals.
pub const WITHDRAWALS: &[u8] = b"cise 1
sort Account
counter balance ( Account )
invariant solvent forall a : Account . ( balance ( a ) >= 0 )
operation deposit ( a : Account , n : int )
  requires ( n >= 0 )
  add balance ( a ) n
end
operation withdraw ( a : Account , n : int )
  requires ( n >= 0 )
  requires ( balance ( a ) >= n )
  add balance ( a ) - n
end
";

/// The same, where two withdrawals from one account conflict.
pub const PURSES: &[u8] = b"cise 1
sort Account
counter balance ( Account )
token purse ( Account )
conflict purse ( x ) purse ( x )
invariant solvent forall a : Account . ( balance ( a ) >= 0 )
operation deposit ( a : Account , n : int )
  requires ( n >= 0 )
  add balance ( a ) n
end
operation withdraw ( a : Account , n : int )
  requires ( n >= 0 )
  requires ( balance ( a ) >= n )
  add balance ( a ) - n
  takes purse ( a )
end
";

/// A flag that is to be up and isn't.
pub const NO_FLAG: &[u8] = b"cise 1
relation up
initially up false
invariant alive up
";

/// A flag that is raised, and stays up.
pub const RAISED: &[u8] = b"cise 1
relation up
initially up true
invariant alive up
operation raise
  insert up
end
";

/// Four constants, and five invariants of three variables each. Two calls have twelve parameters.
pub const MANY: &[u8] = b"cise 1
sort A
const a : A
const b : A
const c : A
const d : A
relation r ( A )
invariant i0 forall x : A , y : A , z : A . ( r ( x ) implies r ( x ) )
invariant i1 forall x : A , y : A , z : A . ( r ( x ) implies r ( x ) )
invariant i2 forall x : A , y : A , z : A . ( r ( x ) implies r ( x ) )
invariant i3 forall x : A , y : A , z : A . ( r ( x ) implies r ( x ) )
invariant i4 forall x : A , y : A , z : A . ( r ( x ) implies r ( x ) )
operation f ( p : A , q : A , s : A , t : A , u : A , v : A )
  insert r ( p )
end
";

/// Numbers beyond the range of a state.
pub const VAST: &[u8] = b"cise 1
counter c
counter d
relation up
initially up true
invariant alive up
operation big
  requires ( c >= 1000000000 )
  requires ( d >= 1000000000 * c )
  remove up
end
";

/// Orders at a price that changes, and a note that is no precondition.
pub const SHOP: &[u8] = b"cise 2
relation noted
counter price
counter sold
initially price 5
token shop
conflict shop shop
operation reprice ( n : int )
  set price n
  takes shop exclusive
end
operation order ( n : int )
  requires ( price = n )
  add sold n
  takes shop shared
end
operation note ( n : int )
  observes ( sold = n )
  insert noted
end
";

/// Players enroll in tournaments, whose seats are counted.
pub const TOURNAMENTS: &[u8] = b"cise 1
sort Player
sort Tournament
relation player ( Player )
relation tourn ( Tournament )
relation enrolled ( Player , Tournament )
counter seats ( Tournament )
initially seats 10
token roster ( Player )
token event ( Tournament )
token entry ( Player , Tournament )
conflict roster ( p ) roster ( p )
conflict event ( t ) event ( t )
conflict entry ( p , t ) roster ( p )
conflict entry ( p , t ) event ( t )
conflict entry ( p , t ) entry ( q , t )
invariant registered forall p : Player , t : Tournament . ( enrolled ( p , t ) implies ( player ( p ) and tourn ( t ) ) )
invariant roomy forall t : Tournament . ( seats ( t ) >= 0 )
operation add_player ( p : Player )
  insert player ( p )
  takes roster ( p )
end
operation rem_player ( p : Player )
  requires forall t : Tournament . not enrolled ( p , t )
  remove player ( p )
  takes roster ( p )
end
operation add_tourn ( t : Tournament )
  insert tourn ( t )
  takes event ( t )
end
operation rem_tourn ( t : Tournament )
  requires forall p : Player . not enrolled ( p , t )
  remove tourn ( t )
  takes event ( t )
end
operation enroll ( p : Player , t : Tournament )
  requires player ( p )
  requires tourn ( t )
  requires ( seats ( t ) >= 1 )
  requires not enrolled ( p , t )
  insert enrolled ( p , t )
  add seats ( t ) - 1
  takes entry ( p , t )
end
operation leave ( p : Player , t : Tournament )
  requires enrolled ( p , t )
  remove enrolled ( p , t )
  add seats ( t ) 1
  takes entry ( p , t )
end
";
