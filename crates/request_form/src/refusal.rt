//! Why a request has no form.

/// Why lines are no request. Their order is that of the tests.
#[derive(Clone, Copy, Debug, PartialEq, Eq)]
pub enum FormRefusal {
    /// A line is no JSON value (RFC 8259).
    BadJson,
    /// A number in it is no whole one of 64 bits, signed.
    FractionNumber,
    /// A line has more than 1,048,576 bytes.
    LineTooLong,
    /// A line has not the form of a request.
    BadRequest,
    /// The input ended before the source line.
    MissingSource,
}
