//! How the files of pages are named, and what stands in them.
ghost use Rattle.std.specs.Prelude.{◌≡◌};
ghost use Rattle.fax_send_receive.specs.Naming.{ending_of};

/// What stands in the file of a page.
#[derive(Clone, Copy)]
pub enum PageForm {
    /// A P4 picture (netpbm, pbm(5)).
    Picture,
    /// A TIFF of class F of this one page (RFC 2306).
    Tiff,
}

impl PageForm {
    /// How the name of such a file ends.
    pub(crate) fn ending(self) -> &'static str
        ensures { result.now ≡ ending_of self }
    {
        match self {
            PageForm::Picture => ".pbm",
            PageForm::Tiff => ".tif",
        }
    }
}

/// How the files of pages are named, and what stands in them.
#[derive(Clone, Copy)]
pub struct PageNaming<'a> {
    /// How the names begin. That of page 2 of call 0 goes on with `-0-2.pbm`, or with `-0-2.tif`.
    pub prefix: &'a str,
    pub form: PageForm,
}
