//! That what the emitter answers is certified.

ghost use Rattle.cert_images.specs.Images.{EachImagesCertified, GraphImagesCertified, RowsAreOfHeads};

/// The image of a graph of one function, with its first operation and each that is jumped to behind a head, keeps every rule of its
/// certificate, where one charge pays for each stretch between heads and objects and code have room; so does what the emitter answers. The
/// certificate has a row for each head, in the order of the code, whose cost is the weight of the operations up to the next head with a wake
/// and a sleep.
pub fn each_images_certified()
    ensures graphs { GraphImagesCertified }
    ensures each { EachImagesCertified }
    ensures rows { RowsAreOfHeads }
{}
