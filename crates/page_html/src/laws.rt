ghost use Rattle.page_html.specs.Pages.{PagesAreFormed};

/// The text of each page is formed, where its pictures are: what comes from outside stands in it escaped.
pub fn law_pages_formed()
    ensures { PagesAreFormed }
{}
