//! Where the rows of a document stand among those of all documents of its kind.

ghost use Rattle.std.specs.Prelude.{◌≡◌, length};
ghost use Rattle.cf_register_parts.specs.Extents.{extent_at};

/// The rows of a document: from `first` up to `end`.
#[derive(Clone, Copy)]
pub struct Extent {
    pub first: u32,
    pub end: u32,
}

/// Where the rows of the document of a number stand; an empty extent where there is no such
/// document.
pub fn extent_of(extents: &Vec<Extent>, number: u32) -> Extent
    ensures { result ≡ extent_at extents.now.items number }
{
    if number == 0 || number as usize > extents.len() {
        return Extent { first: 0, end: 0 };
    }
    extents[number as usize - 1]
}

/// How many rows a list has.
pub fn count<T>(rows: &Vec<T>) -> usize
    ensures { result ≡ length rows.now.items }
{
    rows.as_slice().len()
}
