// Changes by what they do.
ghost use Rattle.std.specs.Prelude.{◌≡◌};
ghost use Rattle.razor_token.specs.Contexts.{stays, leaves, enters, enters_both, becomes, becomes_both, with_sign};

use crate::context::{Change, Context};
use cs_token::Sign;

impl Change {
    /// Nothing changes.
    pub(crate) fn stays() -> Self
        ensures { result ≡ stays }
    {
        Change {
            leaves: false,
            enters: None,
            within: None,
            sign: None,
        }
    }

    /// The innermost context is left.
    pub(crate) fn leaves() -> Self
        ensures { result ≡ leaves }
    {
        Change {
            leaves: true,
            enters: None,
            within: None,
            sign: None,
        }
    }

    /// One context is entered.
    pub(crate) fn enters(context: Context) -> Self
        ensures { result ≡ enters context }
    {
        Change {
            leaves: false,
            enters: Some(context),
            within: None,
            sign: None,
        }
    }

    /// Two contexts are entered, the second innermost.
    pub(crate) fn enters_both(context: Context, within: Context) -> Self
        ensures { result ≡ enters_both context within }
    {
        Change {
            leaves: false,
            enters: Some(context),
            within: Some(within),
            sign: None,
        }
    }

    /// The innermost context is left for another.
    pub(crate) fn becomes(context: Context) -> Self
        ensures { result ≡ becomes context }
    {
        Change {
            leaves: true,
            enters: Some(context),
            within: None,
            sign: None,
        }
    }

    /// The innermost context is left for two, the second innermost.
    pub(crate) fn becomes_both(context: Context, within: Context) -> Self
        ensures { result ≡ becomes_both context within }
    {
        Change {
            leaves: true,
            enters: Some(context),
            within: Some(within),
            sign: None,
        }
    }

    /// Besides, a sign of code stands there.
    pub(crate) fn with_sign(self, sign: Option<Sign>) -> Self
        ensures { result ≡ with_sign sign self }
    {
        Change { sign, ..self }
    }
}
