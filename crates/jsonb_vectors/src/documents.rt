//! The documents.

/// A document and the value that it stands for.
#[derive(Clone, Copy, Debug)]
pub struct Document {
    /// The value as JSON text, or in words if JSON has none.
    pub value: &'static str,
    /// The bytes in hexadecimal. Spaces part the words of 32 bits and the contents.
    pub digits: &'static str,
}

/// A Boolean, a number, and an object of one member.
pub const MIXED_ARRAY: Document = Document {
    value: "[false, 10, {\"k\":\"v\"}]",
    digits: "80000003 30000000 20000002 5000000e 500a 40000001 10000001 10000001 6b 76",
};

pub const TENS: Document = Document {
    value: "[10,20,30]",
    digits: "80000003 20000002 20000002 20000002 500a 5014 501e",
};

pub const NUMBER_THEN_TEXT: Document = Document {
    value: "[1,\"a\"]",
    digits: "80000002 20000002 10000001 5001 61",
};

pub const TEXT_THEN_NUMBER: Document = Document {
    value: "[\"a\",1]",
    digits: "80000002 10000001 20000002 61 5001",
};

pub const ONE_ELEMENT: Document = Document {
    value: "[1]",
    digits: "80000001 20000002 5001",
};

pub const BOTH_SIGNS: Document = Document {
    value: "[1,-2]",
    digits: "80000002 20000002 20000002 5001 40fe",
};

pub const GREATEST_INTEGER: Document = Document {
    value: "[18446744073709551615]",
    digits: "80000001 20000009 50ffffffffffffffff",
};

/// The last number is a decimal.
pub const EQUAL_NUMBERS: Document = Document {
    value: "[1,1,2,1.0]",
    digits: "80000004 20000002 20000002 20000002 2000000a 5001 5001 5002 70000000000000000a01",
};

pub const NESTED_ARRAY: Document = Document {
    value: "[[1]]",
    digits: "80000001 5000000a 80000001 20000002 5001",
};

pub const NULLS: Document = Document {
    value: "{\"a\":null,\"b\":[null]}",
    digits: "40000002 10000001 10000001 00000000 50000008 61 62 80000001 00000000",
};

/// The first phone is `HOME_PHONE`.
pub const PHONES: Document = Document {
    value: "{\"name\":\"Fred\",\"phones\":[{\"number\":3720453,\"type\":\"home\"},\
        {\"number\":5062051,\"type\":\"work\"}]}",
    digits: "40000002 10000004 10000006 10000004 5000005a 6e616d65 70686f6e6573 46726564 \
        80000002 50000027 50000027 \
        40000002 10000006 10000004 20000005 10000004 6e756d626572 74797065 500038c505 686f6d65 \
        40000002 10000006 10000004 20000005 10000004 6e756d626572 74797065 50004d3da3 776f726b",
};

/// An extension as a scalar document.
pub const DATE: Document = Document {
    value: "date 1",
    digits: "20000000 60000005 1000000001",
};

pub const TRUTH_VALUES: Document = Document {
    value: "[false,true]",
    digits: "80000002 30000000 40000000",
};

pub const HOME_PHONE: Document = Document {
    value: "{\"number\":3720453,\"type\":\"home\"}",
    digits: "40000002 10000006 10000004 20000005 10000004 6e756d626572 74797065 500038c505 686f6d65",
};

pub const ONE_PAIR: Document = Document {
    value: "{\"asd\":\"adf\"}",
    digits: "40000001 10000003 10000003 617364 616466",
};

/// All of them.
pub static DOCUMENTS: [Document; 15] = [
    MIXED_ARRAY,
    TENS,
    NUMBER_THEN_TEXT,
    TEXT_THEN_NUMBER,
    ONE_ELEMENT,
    BOTH_SIGNS,
    GREATEST_INTEGER,
    EQUAL_NUMBERS,
    NESTED_ARRAY,
    NULLS,
    PHONES,
    DATE,
    TRUTH_VALUES,
    HOME_PHONE,
    ONE_PAIR,
];
