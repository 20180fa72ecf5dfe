// The bank, in which withdrawals from one account conflict, and schedules of it.

/// Two withdrawals from one account, of which the second doesn't know the first.
pub const TWO_WITHDRAWALS: &[u8] =
    b"{\"sizes\":{\"Account\":1},\"constants\":{},\"replicas\":2,\"steps\":[
{\"replica\":0,\"call\":\"deposit\",\"args\":[0,100]},{\"replica\":1,\"take\":0},
{\"replica\":0,\"call\":\"withdraw\",\"args\":[0,60]},
{\"replica\":1,\"call\":\"withdraw\",\"args\":[0,70]},{\"replica\":0,\"take\":2}]}";

/// Two deposits, which two of three replicas take in different orders.
pub const TWO_DEPOSITS: &[u8] =
    b"{\"sizes\":{\"Account\":2},\"constants\":{},\"replicas\":3,\"steps\":[
{\"replica\":0,\"call\":\"deposit\",\"args\":[0,5]},{\"replica\":1,\"call\":\"deposit\",\"args\":[1,7]},
{\"replica\":0,\"take\":1},{\"replica\":1,\"take\":0}]}";

/// The same, and then a withdrawal that the third replica takes before what it has seen.
pub const TAKEN_TOO_EARLY: &[u8] =
    b"{\"sizes\":{\"Account\":2},\"constants\":{},\"replicas\":3,\"steps\":[
{\"replica\":0,\"call\":\"deposit\",\"args\":[0,5]},{\"replica\":1,\"call\":\"deposit\",\"args\":[1,7]},
{\"replica\":0,\"take\":1},{\"replica\":1,\"take\":0},
{\"replica\":1,\"call\":\"withdraw\",\"args\":[0,3]},{\"replica\":2,\"take\":2}]}";
