use base_io::Place;

/// A call: the numbers of the function in which it stands and of the one that it calls, and its place.
#[derive(Clone, Copy)]
pub struct CallSite {
    pub caller: u32,
    pub callee: u32,
    pub place: Place,
}
