//! What stands under the tag of a delivery, and the number that a delivery bears.
ghost use Rattle.std.specs.Prelude.{◌≡◌, ℕ, Option};
ghost use Rattle.amqp_link_unsettled.specs.Numbers.{is_number, kept_number};

/// What bears a number that its owner gives it, or none.
pub trait Numbered {
    /// The number that it bears.
    ghost number_of: { Self → Option ℕ };

    /// The number that it bears, if it bears one.
    fn number(&self) -> Option<u64>
        ensures { result ≡ number_of self.now };
}

/// What stands under a tag.
#[derive(Drop)]
pub(crate) struct Slot<M> {
    /// Where the numbers rise in the order of the deliveries: more than each number up to this one.
    pub(crate) below: u64,
    /// What is kept of the delivery, until it is taken out.
    pub(crate) kept: Option<M>,
}

impl<M: Numbered> Slot<M> {
    /// Whether the delivery bears this number.
    pub(crate) fn bears(&self, number: u64) -> bool
        ensures { result ≡ is_number number (kept_number M.number_of (self.now).kept) }
    {
        match &self.kept {
            Some(message) => is_number(number, message.number()),
            None => false,
        }
    }
}

/// Whether it is this number.
pub(crate) fn is_number(number: u64, own: Option<u64>) -> bool
    ensures { result ≡ is_number number own }
{
    match own {
        Some(own) => own == number,
        None => false,
    }
}
