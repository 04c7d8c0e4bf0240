// The lines of a listing, resource by resource.
ghost use Rattle.std.specs.Prelude.{◌≡◌, ◌<◌};
ghost use Rattle.std.specs.Option.{option_map};
ghost use Rattle.scripts.specs.Texts.{lines_of};
ghost use Rattle.orders.specs.Lines.{is_for, first_for};

use scripts::texts::lines_in;

fn is_for(resource: u8, line: &[u8]) -> bool
    requires { resource < 100 }
    ensures { result ≡ is_for resource line.now }
{
    line.starts_with(&[b'0' + resource / 10, b'0' + resource % 10])
}

// The line of a resource, if it is listed.
pub fn line_for(listing: &[u8], resource: u8) -> Option<&[u8]>
    requires { resource < 100 }
    ensures { option_map (λ x. x.now) result ≡ first_for resource (lines_of listing.now) }
{
    lines_in(listing).find(|line| is_for(resource, line))
}
