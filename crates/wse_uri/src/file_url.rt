// Texts that are file URLs.
ghost use Rattle.std.specs.Prelude.{◌≡◌, ◌⊎◌, None, Ok, Err, IfOk, IfErr, MatchResult};
ghost use Rattle.url.specs.Parser.{parse_url};
ghost use Rattle.wse_uri.specs.FileUrl.{plain_file_url, file_url, IsPlainFileUrl, IsRootText};

use crate::refused::{RootRefused, UriRefused};
use std::alloc::Global;
use url::{ParseError, Url};

/// That the URL is a file URL without host, query and fragment.
fn check_parts(url: &Url) -> Result<(), UriRefused>
    ensures { MatchResult result (λ _. plain_file_url url.now ≡ Ok url.now) (λ why. plain_file_url url.now ≡ Err why) }
{
    if url.scheme() != "file" {
        return Err(UriRefused::NotFile);
    }
    if url.has_host() {
        return Err(UriRefused::HasHost);
    }
    if url.query().is_some() {
        return Err(UriRefused::HasQuery);
    }
    if url.fragment().is_some() {
        return Err(UriRefused::HasFragment);
    }
    Ok(())
}

/// The file URL without host, query and fragment to which the text parses.
pub fn parse_file_url(alloc: Global, text: &str) -> Result<Url, UriRefused>
    ensures ok { IfOk result (λ url. file_url text.now ≡ Ok url) }
    ensures refused { IfErr result (λ why. (why ≡ UriRefused.Memory) ⊎ (file_url text.now ≡ Err why)) }
{
    match Url::parse(alloc, text) {
        Ok(url) => {
            check_parts(&url)?;
            Ok(url)
        }
        Err(ParseError::OutOfMemory | ParseError::Overflow) => Err(UriRefused::Memory),
        Err(_) => Err(UriRefused::NotUrl),
    }
}

/// The root that the text names: a file URL without host, query and fragment, as the URL Standard reads the text.
pub fn root_of(alloc: Global, text: &str) -> Result<Url, RootRefused>
    ensures parsed { IfOk result (λ root. parse_url None text.now ≡ Ok root) }
    ensures root { IfOk result IsPlainFileUrl }
    ensures refused { IfErr result (λ why. (why ≡ RootRefused.Memory) ⊎ ((why ≡ RootRefused.NotARoot) × ¬ IsRootText text.now)) }
{
    Ok(parse_file_url(alloc, text)?)
}
