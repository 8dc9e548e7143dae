//! Laws of images, on functions that do nothing.

ghost use Rattle.std.specs.Prelude.{◌≡◌, ◌≢◌, ◌⊎◌, List, ℕ, Option, Some};
ghost use Rattle.bk_io.specs.Outside.{Traffic, OnInput};
ghost use Rattle.alpha_isa.specs.Program.{Program};
ghost use Rattle.alpha_isa.specs.ImageFormat.{IsImage};
ghost use Rattle.call_outcomes.specs.declared.outcome.Outcome.{Outcome as Answer};
ghost use Rattle.call_outcomes.specs.declared.outcome.Outcome.TheVariants.{Built, FileFault, WriteFault, BadImage, NoMemory};
ghost use Rattle.call_words.specs.declared.compile_options.MachineLimits.{MachineLimits};
ghost use Rattle.call_images.specs.RunImage.{Executes};
ghost use Rattle.call_images.specs.ExecuteImage.{ExecutesImage};
ghost use Rattle.call_images.specs.MigrateImage.{Migrates};

/// Bytes that hold an image are migrated, unless the outside fails or memory is short.
pub fn an_image_is_migrated()
    ensures { (bytes : List ℕ) (p : Program) (answer : Answer) (old new : Option (List ℕ)) → IsImage bytes p →
        Migrates (Some bytes) answer old new → answer ≢ FileFault → answer ≢ WriteFault →
        (answer ≡ Built) ⊎ (answer ≡ NoMemory) }
{}

/// Bytes that hold an image are executed as it behaves on its stack and within its steps, on the input that was left
/// where it is told, and else on some input, unless the outside fails or memory is short. They are never refused.
pub fn an_image_is_executed()
    ensures answers { (bytes : List ℕ) (p : Program) (limits : MachineLimits) (answer : Answer)
        (before after : Traffic) → IsImage bytes p → Executes limits (Some bytes) answer before after →
        OnInput before.left after.left (λ input rest. ExecutesImage limits p input before after answer) }
    ensures accepts { (bytes : List ℕ) (p : Program) (limits : MachineLimits) (answer : Answer)
        (before after : Traffic) (at : ℕ) → IsImage bytes p →
        Executes limits (Some bytes) answer before after → answer ≢ BadImage at }
{}
