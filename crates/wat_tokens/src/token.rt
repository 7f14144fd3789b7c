// A token.

/// A token of a module's text, as it stands there: WebAssembly Core 1.0, chapter 6.2.
#[derive(Clone, Copy, Debug, PartialEq, Eq)]
pub enum Token<'a> {
    /// `(`
    Opening,
    /// `)`
    Closing,
    /// A string, by what stands between its quotation marks.
    Quoted(&'a [u8]),
    Word(&'a [u8]),
}
