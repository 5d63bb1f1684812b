// What a program answers to its input.
ghost use Rattle.std.specs.Prelude.{◌≡◌, ℕ, ◌<◌, List, length, IfOk};

use std::alloc::{AllocError, Global};

// Whatever stands behind the longest input that is allowed, the answer to it is the same; so no more has to be read than shows that there is more.
pub trait Answers {
    ghost answer_to: { List ℕ → List ℕ };

    // Inputs of more than 65,536 bytes have one answer.
    ghost one_if_long: { (a b : List ℕ) → 65536 < length a → 65536 < length b
        → answer_to a ≡ answer_to b };

    fn answer(heap: Global, input: &[u8]) -> Result<Vec<u8>, AllocError>
        ensures { IfOk result (λ out. out.items ≡ answer_to input.now) };
}
