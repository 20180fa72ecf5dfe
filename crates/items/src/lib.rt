// The list types of the project.
//
// `Items` is a vector that contracts see as the list of its elements. Wherever a type that contracts compare has a field that is a
// sequence or a text, it is an `Items<T>`, so that `≡` of two values compares contents and never the memory that holds them.
//
// `SharedList` is a list of which copies share their elements. It is kept as blocks of 128 elements and the elements after them. A
// copy shares the blocks, so it takes one word for each, and has copies of the last elements alone; `specs/Joined.antt` says what
// the list of some blocks is.
//
// `ShortList` is a list of numbers of which the first few stand in the list itself.
//
// `or_drop!` is for calls that fail while lists are held. All of it stands on std alone.
#![tactic(auto)]

mod block;
mod items;
mod shared_list;
mod short_list;

pub use block::Block;
pub use items::Items;
pub use shared_list::SharedList;
pub use short_list::ShortList;

/// The value of a call; where it fails, lets go of these values and ends with its error. Values that are let go by name are let go
/// once in a proof, and not once for each way out.
#[macro_export]
macro_rules! or_drop {
    ($call:expr; $($value:ident),*) => {
        match $call {
            Ok(value) => value,
            Err(error) => {
                $(drop($value);)*
                return Err(error);
            }
        }
    };
}
