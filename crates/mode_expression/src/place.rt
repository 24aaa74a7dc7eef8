/// What may stand next in the text of an expression.
#[derive(Clone, Copy)]
pub enum Place {
    /// A name or `(`.
    NeedsAtom,
    /// A suffix, or what may follow an item.
    AfterAtom,
    /// Another item, `|`, `)` or the end.
    AfterItem,
    /// The number after `{`.
    Least,
    /// `,` or `}` after the number.
    AfterLeast(u32),
    /// The number after `,`.
    Most(u32),
    /// The `}` after both numbers.
    AfterMost(u32, u32),
}
