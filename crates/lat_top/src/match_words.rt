/// The words of `match`: the definition's file, the style's id, and the certificate's file.
#[derive(Clone, Copy, Debug)]
pub struct MatchWords<'a> {
    pub definition: &'a str,
    pub style: &'a str,
    pub cert: &'a str,
}
