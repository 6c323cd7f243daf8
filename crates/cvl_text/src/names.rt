use vector_memory::Name;

/// The names that a call reads, lent from it, from left to right.
#[derive(Clone, Copy, Debug)]
pub enum NamesRead<'a> {
    Zero,
    One(&'a Name),
    Two(&'a Name, &'a Name),
    Three(&'a Name, &'a Name, &'a Name),
    Four(&'a Name, &'a Name, &'a Name, &'a Name),
}
