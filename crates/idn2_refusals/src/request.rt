//! A request: a label, or a label, a tab and a text.

ghost use Rattle.std.specs.Prelude.{◌≡◌, ◌≤◌, ◌==◌, length};
ghost use Rattle.std.specs.List.{position_or_len};
ghost use Rattle.idn_text.specs.Points.{AreScalarValues};
ghost use Rattle.idn2_refusals.specs.Requests.{requested_label, requested_text};

/// What stands between the label of a request and its text.
const TAB: u32 = 0x09;

/// The label of a request, and its text, which is empty if there is no tab.
pub fn parts_of(points: &[u32]) -> (&[u32], &[u32])
    ensures label { result.0.now ≡ requested_label points.now }
    ensures text { result.1.now ≡ requested_text points.now }
{
    let end = label_len(points);
    (&points[..end], &points[(end + 1).min(points.len())..])
}

/// The label of a request.
pub fn label_of_request(points: &[u32]) -> &[u32]
    ensures label { result.now ≡ requested_label points.now }
    ensures shorter { length result.now ≤ length points.now }
    ensures scalar_values { AreScalarValues points.now → AreScalarValues result.now }
{
    &points[..label_len(points)]
}

/// How many code points stand before the first tab.
fn label_len(points: &[u32]) -> usize
    ensures place { result ≡ position_or_len (λ c. c == 9) points.now }
    ensures within { result ≤ length points.now }
{
    points
        .iter()
        .position(|point| *point == TAB)
        .unwrap_or(points.len())
}
