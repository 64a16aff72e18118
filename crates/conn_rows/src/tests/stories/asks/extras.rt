// Fields that a script is told of.
#[derive(Clone, Copy)]
pub struct Extra {
    pub sent: &'static str,
    pub told: &'static str,
    // Of these, what a script behind a local redirect is told.
    pub told_later: &'static str,
}

pub const NO_EXTRA: Extra = Extra {
    sent: "",
    told: "",
    told_later: "",
};

pub static EXTRAS: [Extra; 5] = [
    NO_EXTRA,
    NO_EXTRA,
    Extra {
        sent: "Cookie: a=1\r\nX-Note:  x \r\ncookie: b=2\r\nX-NOTE: y\r\n",
        told: "HTTP_COOKIE=a=1; b=2\nHTTP_X_NOTE=x, y\n",
        told_later: "HTTP_COOKIE=a=1; b=2\nHTTP_X_NOTE=x, y\n",
    },
    Extra {
        sent: "Authorization: z\r\nProxy: p\r\nAccept: */*\r\nX_Y: 1\r\nEmpty:\r\n",
        told: "HTTP_ACCEPT=*/*\n",
        told_later: "HTTP_ACCEPT=*/*\n",
    },
    Extra {
        sent: "Sec-WebSocket-Version: 13\r\n",
        told: "HTTP_SEC_WEBSOCKET_VERSION=13\n",
        told_later: "",
    },
];

pub fn extra_at(place: usize) -> &'static Extra {
    match EXTRAS.get(place) {
        Some(extra) => extra,
        None => &NO_EXTRA,
    }
}
