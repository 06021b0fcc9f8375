/// The words of `check`: the certificate's file.
#[derive(Clone, Copy, Debug)]
pub struct CheckWords<'a> {
    pub cert: &'a str,
}
