// A list of at most N, in its place: it is copied as it is, which the kit's `ArrayVec` is not, and takes no memory elsewhere.
// It has no model: a type that is copied has to be had back from its model, and the list does not say what stands in free places.
ghost use Rattle.std.specs.Prelude.{◌≡◌, ◌≤◌, ⊤};

use std::alloc::AllocError;

pub mod methods;

pub struct Few<T, const N: usize> {
    items: [T; N],
    len: usize,
    ghost within: { len ≤ N },
}

impl<T: Copy, const N: usize> Copy for Few<T, N> {}

// By hand: a derive refuses a generic struct with a ghost field.
impl<T: Copy, const N: usize> Clone for Few<T, N> {
    ghost is_clone = { λ x y. y ≡ x };

    ghost is_infallible = { λ _. ⊤ };

    fn clone(&self) -> Result<Few<T, N>, AllocError> {
        Ok(*self)
    }
}
