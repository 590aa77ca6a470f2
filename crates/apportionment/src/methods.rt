// The methods in the order in which document 01 names them, their words and their numbers.
ghost use Rattle.std.specs.Prelude.{◌≡◌};
ghost use Rattle.apportionment.specs.Methods.{method_text, method_number, method_numbered};

use crate::Method;
use crate::refusals::Refusal;

impl Method {
    // The methods in document 01's order.
    pub const ALL: [Method; 8] = [
        Method::Leximin,
        Method::Adams,
        Method::Dean,
        Method::Hill,
        Method::Webster,
        Method::Jefferson,
        Method::Remainders,
        Method::Quota,
    ];

    // Its word, as registers and listings spell it.
    pub fn word(self) -> &'static [u8]
        ensures { result.now ≡ method_text self }
    {
        match self {
            Method::Leximin => b"leximin",
            Method::Adams => b"adams",
            Method::Dean => b"dean",
            Method::Hill => b"hill",
            Method::Webster => b"webster",
            Method::Jefferson => b"jefferson",
            Method::Remainders => b"remainders",
            Method::Quota => b"quota",
        }
    }
}

impl From<Method> for u64 {
    ghost from_gives = { λ method number. number ≡ method_number method };

    fn from(method: Method) -> u64 {
        method as u64
    }
}

impl TryFrom<u64> for Method {
    type Error = Refusal;

    ghost try_from_gives = { λ number made. made ≡ method_numbered number };

    fn try_from(number: u64) -> Result<Method, Refusal> {
        let methods = Method::ALL;
        methods
            .get(number as usize)
            .copied()
            .ok_or(Refusal::MethodUnknown)
    }
}
