//! Laws, each the contract of a function that does nothing.

ghost use Rattle.image_theorem.specs.image_runs.Images.{ImagesKeep};

/// An image in which the items of a program stand behaves as the program does over temporaries, and in no other way.
pub fn images_keep()
    ensures { ImagesKeep }
{
    // a faithful allocation keeps the meaning, and no instruction takes back output
    alloc_model::laws::faithful_keeps_the_meaning();
    alloc_model::laws::runs_go_on();
}
