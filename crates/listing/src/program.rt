// What the program `rank` answers to its input.
ghost use Rattle.listing.specs.Listing.{listing_of};
ghost use Rattle.listing.specs.Long.{long_listing};

use crate::listing;
use std::alloc::{AllocError, Global};
use streams::answers::Answers;

pub struct Listing;

impl Answers for Listing {
    ghost answer_to = { listing_of };

    ghost one_if_long = { long_listing };

    fn answer(heap: Global, input: &[u8]) -> Result<Vec<u8>, AllocError> {
        listing(heap, input)
    }
}
