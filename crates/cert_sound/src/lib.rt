//! Certified images are safe under every supply whose refills each reach the budget.
#![tactic(auto)]

ghost use Rattle.cert_sound.specs.Sound.{IsSound};

/// An image with a certificate that keeps every rule is never cut inside a stretch, never faults, spends in each stretch at most
/// what its row says, and reads in each stretch only what that stretch has written: with functions of both kinds, whoever wrote
/// image and certificate.
pub fn certified_images_are_safe()
    ensures { IsSound }
{}
