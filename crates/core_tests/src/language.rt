// Tests of words, trees, typing and spelling by their public calls: tables of texts, with the answer to each.
//
// The contracts of `word_cut`, `spec_reader`, `spec_types` and `spec_trees` say which words some bytes have, which tree they are read as, where
// reading stops, what is wrong with a tree, and how a tree is spelled. The tables show the same on small texts, worked out by hand from docs/users/LANGUAGE.md; and that texts
// nested as deep as the language allows are read. They stand in a crate of their own so that no crate below is proved again with
// its tests. `words` has the cutting of bytes, `numbers` the reading of whole numbers, `reading` makes texts and reads them,
// `trees` has what is read and what is refused, `typed` what trees are, `deep` the deepest formulas, and `layout` the spelling.
#[cfg(test)]
mod deep;
#[cfg(test)]
mod layout;
#[cfg(test)]
mod numbers;
#[cfg(test)]
mod reading;
#[cfg(test)]
mod trees;
#[cfg(test)]
mod typed;
#[cfg(test)]
mod words;
