use wf_hooks::Meanings;

/// What the shipped functions accept and answer.
pub struct Shipped;

impl Meanings for Shipped {
    ghost use Rattle.wf_shipped.specs.Shipping.{AcceptsShipped, shipped_meaning};

    ghost accepts = { AcceptsShipped };

    ghost answer = { shipped_meaning };
}
