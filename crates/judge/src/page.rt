// A lent page that is full of FF again at every way out.
ghost use Rattle.std.specs.Prelude.{◌≡◌, length, replicate};

// Refills the page when it ends.
pub(crate) struct PageGuard<'a> {
    pub(crate) page: &'a mut [u8],
}

impl Drop for PageGuard<'_> {
    fn drop(self)
        ensures { self.exit.0.now ≡ replicate (length self.entry.page.now) 255 }
    {
        self.page.fill(0xFF);
        let PageGuard { page: _ } = self;
    }
}
