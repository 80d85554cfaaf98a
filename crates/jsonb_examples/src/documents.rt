//! The documents of the examples, and a test's comparison.

use std::fmt::Debug;
use std::process::Abort;

/// Fails a test if a result is not the expected one.
pub fn expect<T: PartialEq + Debug + Drop>(rt: &impl Abort, found: T, wanted: T) {
    assert_eq!(*rt; found, wanted);
}

/// `{"name":"Fred","phones":[{"number":3720453,"type":"home"},{"number":5062051,"type":"work"}]}`
pub const FRED: &[u8] = b"\
    \x40\0\0\x02\x10\0\0\x04\x10\0\0\x06\x10\0\0\x04\x50\0\0\x5anamephonesFred\x80\0\0\x02\x50\0\
    \0\x27\x50\0\0\x27\x40\0\0\x02\x10\0\0\x06\x10\0\0\x04\x20\0\0\x05\x10\0\0\x04numbertype\x50\
    \0\x38\xc5\x05home\x40\0\0\x02\x10\0\0\x06\x10\0\0\x04\x20\0\0\x05\x10\0\0\x04numbertype\x50\
    \0\x4d\x3d\xa3work";

/// `{"age":62,"name":"Ann"}`
pub const ANN: &[u8] =
    b"\x40\0\0\x02\x10\0\0\x03\x10\0\0\x04\x20\0\0\x02\x10\0\0\x03agename\x50\x3eAnn";

/// `{"age":31,"name":"Bob"}`
pub const BOB: &[u8] =
    b"\x40\0\0\x02\x10\0\0\x03\x10\0\0\x04\x20\0\0\x02\x10\0\0\x03agename\x50\x1fBob";

/// `{"name":"Cyd"}`
pub const CYD: &[u8] = b"\x40\0\0\x01\x10\0\0\x04\x10\0\0\x03nameCyd";

/// `{"book":[{"price":10,"title":"A"},{"price":25,"title":"B"}]}`
pub const BOOKS: &[u8] = b"\
    \x40\0\0\x01\x10\0\0\x04\x50\0\0\x4ebook\x80\0\0\x02\x50\0\0\x21\x50\0\0\x21\x40\0\0\x02\x10\0\
    \0\x05\x10\0\0\x05\x20\0\0\x02\x10\0\0\x01pricetitle\x50\x0aA\x40\0\0\x02\x10\0\0\x05\x10\0\0\
    \x05\x20\0\0\x02\x10\0\0\x01pricetitle\x50\x19B";

/// `[10,25]`
pub const PRICES: &[u8] = b"\x80\0\0\x02\x20\0\0\x02\x20\0\0\x02\x50\x0a\x50\x19";

/// `["A","B"]`
pub const TITLES: &[u8] = b"\x80\0\0\x02\x10\0\0\x01\x10\0\0\x01AB";

/// `"A"`
pub const TITLE_A: &[u8] = b"\x20\0\0\0\x10\0\0\x01A";

/// `{"color":"red","size":2}`
pub const DEFAULTS: &[u8] = b"\
    \x40\0\0\x02\x10\0\0\x05\x10\0\0\x04\x10\0\0\x03\x20\0\0\x02colorsizered\x50\x02";

/// `{"color":null,"size":3}`
pub const USER: &[u8] =
    b"\x40\0\0\x02\x10\0\0\x05\x10\0\0\x04\0\0\0\0\x20\0\0\x02colorsize\x50\x03";

/// `{"size":3}`
pub const SETTINGS: &[u8] = b"\x40\0\0\x01\x10\0\0\x04\x20\0\0\x02size\x50\x03";

/// `{"log":{"level":"info"},"server":{"host":"localhost","port":8080}}`
pub const CONFIGURATION: &[u8] = b"\
    \x40\0\0\x02\x10\0\0\x03\x10\0\0\x06\x50\0\0\x15\x50\0\0\x28logserver\x40\0\0\x01\x10\0\0\
    \x05\x10\0\0\x04levelinfo\x40\0\0\x02\x10\0\0\x04\x10\0\0\x04\x10\0\0\x09\x20\0\0\x03hostpor\
    tlocalhost\x50\x1f\x90";

/// `{"log":{"level":"info"},"server":{"host":"localhost","port":80}}`
pub const WITH_PORT_80: &[u8] = b"\
    \x40\0\0\x02\x10\0\0\x03\x10\0\0\x06\x50\0\0\x15\x50\0\0\x27logserver\x40\0\0\x01\x10\0\0\
    \x05\x10\0\0\x04levelinfo\x40\0\0\x02\x10\0\0\x04\x10\0\0\x04\x10\0\0\x09\x20\0\0\x02hostpor\
    tlocalhost\x50\x50";

/// `{"log":{"level":"info"},"server":{"host":"localhost"}}`
pub const WITHOUT_PORT: &[u8] = b"\
    \x40\0\0\x02\x10\0\0\x03\x10\0\0\x06\x50\0\0\x15\x50\0\0\x19logserver\x40\0\0\x01\x10\0\0\
    \x05\x10\0\0\x04levelinfo\x40\0\0\x01\x10\0\0\x04\x10\0\0\x09hostlocalhost";

/// `80`
pub const PORT_80: &[u8] = b"\x20\0\0\0\x20\0\0\x02\x50\x50";

/// `8080`
pub const PORT_8080: &[u8] = b"\x20\0\0\0\x20\0\0\x03\x50\x1f\x90";

/// `{"host":"localhost","port":8080}`
pub const SERVER: &[u8] = b"\
    \x40\0\0\x02\x10\0\0\x04\x10\0\0\x04\x10\0\0\x09\x20\0\0\x03hostportlocalhost\x50\x1f\x90";

/// `{"port":80}`
pub const ONLY_PORT_80: &[u8] = b"\x40\0\0\x01\x10\0\0\x04\x20\0\0\x02port\x50\x50";

/// `{"host":"localhost","port":80}`
pub const SERVER_WITH_PORT_80: &[u8] = b"\
    \x40\0\0\x02\x10\0\0\x04\x10\0\0\x04\x10\0\0\x09\x20\0\0\x02hostportlocalhost\x50\x50";

/// `{"may":["read","write"],"site":{"name":"docs","part":"guide"}}`
pub const EDITOR: &[u8] = b"\
    \x40\0\0\x02\x10\0\0\x03\x10\0\0\x04\x50\0\0\x15\x50\0\0\x25maysite\x80\0\0\x02\x10\0\0\x04\
    \x10\0\0\x05readwrite\x40\0\0\x02\x10\0\0\x04\x10\0\0\x04\x10\0\0\x04\x10\0\0\x05namepartdoc\
    sguide";

/// `{"may":["read"],"site":{"name":"docs"}}`
pub const READER: &[u8] = b"\
    \x40\0\0\x02\x10\0\0\x03\x10\0\0\x04\x50\0\0\x0c\x50\0\0\x14maysite\x80\0\0\x01\x10\0\0\x04r\
    ead\x40\0\0\x01\x10\0\0\x04\x10\0\0\x04namedocs";

/// `{"may":["write"],"site":{"name":"docs","part":"guide"}}`
pub const WRITE_GUIDE: &[u8] = b"\
    \x40\0\0\x02\x10\0\0\x03\x10\0\0\x04\x50\0\0\x0d\x50\0\0\x25maysite\x80\0\0\x01\x10\0\0\x05w\
    rite\x40\0\0\x02\x10\0\0\x04\x10\0\0\x04\x10\0\0\x04\x10\0\0\x05namepartdocsguide";

/// `{"may":["write"],"site":{"name":"docs","part":"api"}}`
pub const WRITE_API: &[u8] = b"\
    \x40\0\0\x02\x10\0\0\x03\x10\0\0\x04\x50\0\0\x0d\x50\0\0\x23maysite\x80\0\0\x01\x10\0\0\x05w\
    rite\x40\0\0\x02\x10\0\0\x04\x10\0\0\x04\x10\0\0\x04\x10\0\0\x03namepartdocsapi";

/// `["news","sport"]`
pub const OLD_TAGS: &[u8] = b"\x80\0\0\x02\x10\0\0\x04\x10\0\0\x05newssport";

/// `["sport","weather"]`
pub const NEW_TAGS: &[u8] = b"\x80\0\0\x02\x10\0\0\x05\x10\0\0\x07sportweather";

/// `["news","sport","weather"]`
pub const ALL_TAGS: &[u8] = b"\x80\0\0\x03\x10\0\0\x04\x10\0\0\x05\x10\0\0\x07newssportweather";

/// `["weather"]`
pub const ADDED_TAGS: &[u8] = b"\x80\0\0\x01\x10\0\0\x07weather";

/// `["news"]`
pub const REMOVED_TAGS: &[u8] = b"\x80\0\0\x01\x10\0\0\x04news";

/// `["sport"]`
pub const SHARED_TAGS: &[u8] = b"\x80\0\0\x01\x10\0\0\x05sport";

/// `"news"`
pub const NEWS: &[u8] = b"\x20\0\0\0\x10\0\0\x04news";

/// `"weather"`
pub const WEATHER: &[u8] = b"\x20\0\0\0\x10\0\0\x07weather";

/// `1`
pub const ONE: &[u8] = b"\x20\0\0\0\x20\0\0\x02\x50\x01";

/// `1.0`
pub const ONE_POINT_ZERO: &[u8] = b"\x20\0\0\0\x20\0\0\x0a\x70\0\0\0\0\0\0\0\x0a\x01";

/// `[10,20,-5]`
pub const AMOUNTS: &[u8] =
    b"\x80\0\0\x03\x20\0\0\x02\x20\0\0\x02\x20\0\0\x02\x50\x0a\x50\x14\x40\xfb";

/// `{"amounts":[10,20,-5],"total":25}`
pub const INVOICE: &[u8] = b"\
    \x40\0\0\x02\x10\0\0\x07\x10\0\0\x05\x50\0\0\x16\x20\0\0\x02amountstotal\x80\0\0\x03\x20\0\0\
    \x02\x20\0\0\x02\x20\0\0\x02\x50\x0a\x50\x14\x40\xfb\x50\x19";

/// `[20,-5]`
pub const LATER_AMOUNTS: &[u8] = b"\x80\0\0\x02\x20\0\0\x02\x20\0\0\x02\x50\x14\x40\xfb";

/// `[25]`
pub const TOTAL_ALONE: &[u8] = b"\x80\0\0\x01\x20\0\0\x02\x50\x19";

/// `[]`
pub const EMPTY_ARRAY: &[u8] = b"\x80\0\0\0";

/// `30`
pub const THIRTY: &[u8] = b"\x20\0\0\0\x20\0\0\x02\x50\x1e";

/// `70`
pub const SEVENTY: &[u8] = b"\x20\0\0\0\x20\0\0\x02\x50\x46";

/// `[30,70,2]`
pub const TWO_COUNTED: &[u8] =
    b"\x80\0\0\x03\x20\0\0\x02\x20\0\0\x02\x20\0\0\x02\x50\x1e\x50\x46\x50\x02";

/// `62`
pub const SIXTY_TWO: &[u8] = b"\x20\0\0\0\x20\0\0\x02\x50\x3e";

/// `"Ann"`
pub const NAME_ANN: &[u8] = b"\x20\0\0\0\x10\0\0\x03Ann";
