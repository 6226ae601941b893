//! What the images of graphs keep.

ghost use Rattle.each_image.specs.Each.{EachHeadsStand};
ghost use Rattle.each_image.specs.Laws.{AreEachHeld, AreEachImages, EachChargesWork, EachImagesAgree, EachImagesEndure, IsOverhead};

/// The image of a graph of one function whose first operation has a head, and each that is jumped to. Where one charge pays for each stretch
/// between heads, every run of it over refills that each reach the budget shows what the program does and no more, is never cut, and does at
/// least one operation in each charge that another refill follows: behind each operation that is counted the machine stands at the one that
/// the graph executes next, at each refill it is to be resumed there, and FRAM holds the words of the graph's objects. On every board, under
/// any refills, the image does no work behind a cut inside a stretch and never stops by a fault. The heads of a graph where no plan says them
/// stand so, and where one charge pays for each operation, it pays for each of their stretches. The blocks of an image whose objects and code
/// have room ascend, don't touch, and lie in FRAM, and some first state holds it. What a stretch costs apart from its work is what a wake and
/// a sleep cost.
pub fn each_images_agree()
    ensures agree { EachImagesAgree }
    ensures works { EachChargesWork }
    ensures endure { EachImagesEndure }
    ensures heads { EachHeadsStand }
    ensures is_image { AreEachImages }
    ensures is_held { AreEachHeld }
    ensures overhead { IsOverhead }
{}
